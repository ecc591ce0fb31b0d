//! Octets laid one after another at the front of an output.
ghost use Rattle.std.specs.Prelude.{◌≡◌, ◌^◌, ◌≤◌, false, length, IfSome};
ghost use Rattle.ax_bits.specs.Bits.{bits};
ghost use Rattle.ax_fspec.specs.Fields.{least_field};
ghost use Rattle.ax_moves.specs.Fronts.{cleared, kept_bits};
ghost use Rattle.ax_moves.specs.Laying.{Begins, Gathers, Lays};
ghost use Rattle.ax_format.specs.Canonical.{canon};
ghost use Rattle.ax_format.specs.Sizes.{longest_body};
ghost use Rattle.ax_walk.specs.Shown.{item_kind, item_value};

use ax_bits::Out;
use ax_canon::canonical_item;
use ax_codec::Codec;
use ax_fspec::{Presence, write_presence};
use ax_walk::ItemView;

/// The most octets of a data block.
pub const LONGEST: u32 = 65_535;

/// Writes the least presence field of a set at the front of an output, and answers its octets.
fn spell_field(marked: &Presence, output: &mut [u8]) -> u32
    requires room { (18 ≤ length output.old) × (length output.old ≤ 2 ^ 20) }
    ensures begins { Begins (least_field marked.now) result output.new }
    ensures room { length output.new ≡ length output.old }
{
    let mut out = Out::over(output);
    let before = out.room();
    write_presence(marked, &mut out);
    (before - out.room()) / 8
}

/// Writes the canonical spelling of an item's value at the front of an output, and answers its octets.
fn spell_item(codec: &Codec, item: &ItemView<'_, '_>, output: &mut [u8]) -> u32
    requires codec { item.now.codec.now ≡ codec.now }
    requires whole { item.now.by_fx ≡ false }
    requires room { (longest_body ≤ length output.old) × (length output.old ≤ 2 ^ 20) }
    ensures begins { Begins (canon (item_kind item.now) (item_value item.now)) result output.new }
    ensures room { length output.new ≡ length output.old }
{
    let mut out = Out::over(output);
    let before = out.room();
    canonical_item(codec, item, &mut out);
    (before - out.room()) / 8
}

/// Lays the least presence field of a set after `at` octets, and answers how many octets were laid.
pub fn lay_field(marked: &Presence, at: u32, output: &mut [u8]) -> u32
    requires room { length output.old ≡ 131067 }
    ensures laid { Lays (least_field marked.now) at result output.old output.new }
    ensures room { length output.new ≡ 131067 }
{
    let octets = spell_field(marked, &mut output[at.min(LONGEST) as usize..]);
    at.saturating_add(octets)
}

/// Lays octets after `at` octets, and answers how many octets were laid. Past 65,535 they are counted alone.
#[inline]
pub fn lay_octets(octets: &[u8], at: u32, output: &mut [u8]) -> u32
    requires room { length output.old ≡ 131067 }
    ensures laid { Gathers octets.now at result output.old output.new }
    ensures room { length output.new ≡ 131067 }
{
    let count = octets.len().min(u32::MAX as usize) as u32;
    let end = at.saturating_add(count);
    if end <= LONGEST {
        output[at as usize..end as usize].copy_from_slice(octets);
    }
    end
}

/// Lays octets, of the last one the lowest bit cleared.
fn lay_cleared(octets: &[u8], at: u32, output: &mut [u8]) -> u32
    requires room { length output.old ≡ 131067 }
    ensures laid { Lays (cleared (bits octets.now)) at result output.old output.new }
    ensures room { length output.new ≡ 131067 }
{
    let Some((last, before)) = octets.split_last() else {
        return at;
    };
    let end = lay_octets(before, at, output);
    lay_octets(&[*last / 2 * 2], end, output)
}

/// Lays the first octets of those of an extended item, with the FX bit of the last part cleared; where no number of them is
/// given, all octets as they are.
pub fn lay_front(octets: &[u8], front: Option<usize>, at: u32, output: &mut [u8]) -> u32
    requires front { IfSome front (λ n. n ≤ length octets.now) }
    requires room { length output.old ≡ 131067 }
    ensures laid { Lays (kept_bits front octets.now) at result output.old output.new }
    ensures room { length output.new ≡ 131067 }
{
    match front {
        Some(front) => lay_cleared(&octets[..front], at, output),
        None => lay_octets(octets, at, output),
    }
}

/// Lays the canonical spelling of an item's value after `at` octets, and answers how many octets were laid.
pub fn lay_item(codec: &Codec, item: &ItemView<'_, '_>, at: u32, output: &mut [u8]) -> u32
    requires codec { item.now.codec.now ≡ codec.now }
    requires whole { item.now.by_fx ≡ false }
    requires room { length output.old ≡ 131067 }
    ensures laid { Lays (canon (item_kind item.now) (item_value item.now)) at result output.old output.new }
    ensures room { length output.new ≡ 131067 }
{
    let octets = spell_item(codec, item, &mut output[at.min(LONGEST) as usize..]);
    at.saturating_add(octets)
}
