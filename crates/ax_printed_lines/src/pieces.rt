//! Numbers, FX bits, presence fields and counts.
ghost use Rattle.std.specs.Prelude.{◌≡◌, ◌≤◌, ◌<◌, ◌^◌, [], ◌∷◌, ◌++◌, length, IsTrue, IfSome};
ghost use Rattle.ax_bits.specs.Bits.{word, bits, AreOctets};
ghost use Rattle.ax_bits.specs.Out.{written};
ghost use Rattle.ax_fspec.specs.Fields.{least_field};
ghost use Rattle.ax_format.specs.Canonical.{number_canon};
ghost use Rattle.ax_format.specs.InBounds.{IsWidth};
ghost use Rattle.ax_format.specs.Shape.{NumberShape};
ghost use Rattle.ax_format.specs.Sizes.{longest_body};
ghost use Rattle.ax_format.specs.Widths.{counter_width, counter_octets, fx_width};
ghost use Rattle.ax_fspec.specs.Reading.{fx_bit};
ghost use Rattle.ax_text_form.specs.ValueText.{number_onto};
ghost use Rattle.ax_printed_lines.specs.Laid.{laid, Lays, Fills};
ghost use Rattle.ax_printed_lines.specs.Printed.{IsBuilt};

use crate::cursor::Cursor;
use crate::laid::{AT_ONCE, LaidBits};
use ax_bits::Out;
use ax_format::{Counter, LastPart};
use ax_fspec::{Presence, write_presence};

/// Whether the number has at most that many bits. One of 64 bits or fewer has at most 64.
#[inline(always)]
fn is_below(number: u64, width: u32) -> bool
    ensures { IsTrue result → number < 2 ^ width }
{
    if width >= 64 {
        return true;
    }
    number < 1u64 << width
}

/// A number of that many bits is read, and they are laid.
#[inline(always)]
pub fn number_built(cursor: &mut Cursor<'_>, width: u32, out: &mut LaidBits<'_>) -> Option<()>
    requires { IsWidth width }
    ensures { IfSome result (λ done. IsBuilt (NumberShape width) (λ v. number_onto v []) (number_canon width) cursor.old cursor.new out.old out.new) }
{
    let number = cursor.number()?;
    number_laid(number, width, out)
}

/// Lays a number of that many bits. None comes where it has more.
#[inline(always)]
pub fn number_laid(number: u64, width: u32, out: &mut LaidBits<'_>) -> Option<()>
    requires { IsWidth width }
    ensures { IfSome result (λ done. (number < 2 ^ width) × Lays out.old out.new (word width number)) }
{
    if width > AT_ONCE {
        return wide_laid(number, width, out);
    }
    if !is_below(number, width) {
        return None;
    }
    out.push(number, width)
}

/// The same of more bits than are laid at once.
#[cold]
fn wide_laid(number: u64, width: u32, out: &mut LaidBits<'_>) -> Option<()>
    requires { (56 < width) × (width ≤ 128) }
    ensures { IfSome result (λ done. (number < 2 ^ width) × Lays out.old out.new (word width number)) }
{
    if !is_below(number, width) {
        return None;
    }
    out.push_wide(number, width)
}

/// An FX bit, which is set where more follows. None comes where there is no room.
pub fn fx_built(more: bool, out: &mut LaidBits<'_>) -> Option<()>
    ensures { IfSome result (λ done. Lays out.old out.new (fx_bit more ∷ [])) }
{
    out.push(if more { 1 } else { 0 }, 1)
}

/// The FX bit of the last part that is present, after which the kind has so many others. It is not set. Nothing is laid where the
/// part has none.
pub fn last_fx_built(last: LastPart, others: usize, out: &mut LaidBits<'_>) -> Option<()>
    ensures { IfSome result (λ done. Lays out.old out.new (word (fx_width last others) 0)) }
{
    if last.fx_width(others) == 0 {
        return Some(());
    }
    fx_built(false, out)
}

/// The octets, where a body may have as many.
fn body_of(octets: &[u8]) -> Option<&[u8]>
    ensures same { IfSome result (λ body. body.now ≡ octets.now) }
    ensures few { IfSome result (λ body. length body.now ≤ longest_body) }
    ensures octets { IfSome result (λ body. AreOctets body.now) }
{
    if octets.len() > 65_532 {
        return None;
    }
    Some(octets)
}

/// The octets that were laid. None comes where bits are left over, or where they are more than a body may have.
pub fn whole_octets<'b>(inner: &'b LaidBits<'_>) -> Option<&'b [u8]>
    ensures bits { IfSome result (λ octets. bits octets.now ≡ laid inner.now) }
    ensures few { IfSome result (λ octets. length octets.now ≤ longest_body) }
    ensures octets { IfSome result (λ octets. AreOctets octets.now) }
{
    let octets = inner.octets()?;
    let body = body_of(octets)?;
    Some(body)
}

/// Writes a count, in the octets of its counter, into the room that was left for them at octet `at`.
pub fn count_filled(size: Counter, count: u32, at: usize, out: &mut LaidBits<'_>) -> Option<()>
    requires { count < 2 ^ counter_width size }
    ensures { IfSome result (λ done. Fills out.old out.new at (counter_octets size) (word (counter_width size) count)) }
{
    let mut room = [0u8; EIGHT];
    let mut counter = LaidBits::over(&mut room);
    counter.push(u64::from(count), 8 * size.octets())?;
    counter.settle()?;
    out.fill(at, size.octets() as usize, counter.octets()?)
}

// More octets than a counter has: where eight have room, they are stored at once.
const EIGHT: usize = 8;

/// The octets that were written to an output. None comes where bits are left over.
fn octets_written<'b>(out: &'b Out<'_>) -> Option<&'b [u8]>
    ensures { IfSome result (λ octets. bits octets.now ≡ written out.now) }
{
    if out.room() % 8 != 0 {
        return None;
    }
    Some(out.octets())
}

/// The room that a presence field over so many slots needs: an octet for each seven slots.
#[inline(always)]
pub fn field_room(slots: usize) -> usize {
    if slots % 7 == 0 {
        slots / 7
    } else {
        slots / 7 + 1
    }
}

/// Writes the least presence field of a set into the room that was left for it at octet `at`.
pub fn field_filled(marks: &Presence, at: usize, room: usize, out: &mut LaidBits<'_>) -> Option<()>
    ensures { IfSome result (λ done. Fills out.old out.new at room (least_field marks.now)) }
{
    let mut own = [0u8; LONGEST_FIELD];
    let mut field = Out::over(&mut own);
    write_presence(marks, &mut field);
    out.fill(at, room, octets_written(&field)?)
}

// The most octets of a presence field.
const LONGEST_FIELD: usize = 18;
