//! Values of kinds.
ghost use Rattle.std.specs.Prelude.{◌^◌, ◌<◌, ◌≤◌, length, IfSome};
ghost use Rattle.ax_format.specs.InBounds.{InBounds, SlotsInBounds};
ghost use Rattle.ax_format.specs.Tree.{slot_and, no_slots};
ghost use Rattle.ax_format.specs.Widths.{counter_width};
ghost use Rattle.ax_text_lines.specs.HeldText.{text_kind, text_slot, text_slots};
ghost use Rattle.ax_printed_lines.specs.Builds.{BuildsKind, BuildsCounted, BuildsEach, BuildsEntries, BuildsCompound};
ghost use Rattle.ax_printed_lines.specs.Printed.{AreSlots, BuildsSlot};

use crate::cursor::Cursor;
use crate::explicit::explicit_built;
use crate::fixed::{held_built, named_built, parts_built, run_built};
use crate::laid::LaidBits;
use crate::names::FrontWord;
use crate::pieces::{count_filled, field_filled, field_room};
use ax_format::{Counter, Name};
use ax_fspec::Presence;
use ax_text_lines::{TextKind, TextSlot, TextSlots};

/// The value of a kind that comes is read, and its canonical bits are laid.
#[cycle(kind_built)]
pub fn kind_built(
    cursor: &mut Cursor<'_>,
    kind: &TextKind<'_>,
    out: &mut LaidBits<'_>,
) -> Option<()>
    requires { InBounds (text_kind kind.now) }
    ensures { IfSome result (λ done. BuildsKind (text_kind kind.now) cursor.old cursor.new out.old out.new) }
{
    match kind {
        TextKind::Fixed(fixed) => held_built(cursor, fixed, out),
        TextKind::Explicit => explicit_built(cursor, out),
        TextKind::Extended { last, parts } => {
            if !cursor.opens() {
                return None;
            }
            parts_built(cursor, *last, parts, out)
        }
        TextKind::Counted {
            counter: size,
            inner,
        } => {
            if !cursor.opens() {
                return None;
            }
            counted_built(cursor, *size, inner, out)
        }
        TextKind::ByFx(fixed) => {
            if !cursor.opens() {
                return None;
            }
            run_built(cursor, fixed, out)
        }
        TextKind::Compound(slots) => {
            if !cursor.opens() {
                return None;
            }
            compound_built(cursor, slots, out)
        }
    }
}

/// The values of a counted or wide item, and the brace after them. They are laid behind room for REP, which is written once they
/// are there.
#[cycle(kind_built)]
fn counted_built(
    cursor: &mut Cursor<'_>,
    size: Counter,
    kind: &TextKind<'_>,
    out: &mut LaidBits<'_>,
) -> Option<()>
    requires { InBounds (text_kind kind.now) }
    ensures { IfSome result (λ done. BuildsCounted size (text_kind kind.now) cursor.old cursor.new out.old out.new) }
{
    let at = out.leave(size.octets() as usize)?;
    let count = each_built(cursor, size, kind, out)?;
    count_filled(size, count, at, out)
}

/// As many values of a kind as the counter can hold, or fewer, and the brace after them. It answers how many they are.
#[cycle(kind_built)]
fn each_built(
    cursor: &mut Cursor<'_>,
    size: Counter,
    kind: &TextKind<'_>,
    out: &mut LaidBits<'_>,
) -> Option<u32>
    requires { InBounds (text_kind kind.now) }
    ensures few { IfSome result (λ count. count < 2 ^ counter_width size) }
    ensures built { IfSome result (λ count. BuildsEach (text_kind kind.now) count cursor.old cursor.new out.old out.new) }
{
    let most = size.greatest();
    let mut count = 0;
    while count < most {
        if cursor.closes() {
            return Some(count);
        }
        kind_built(cursor, kind, out)?;
        count += 1;
    }
    if !cursor.closes() {
        return None;
    }
    Some(count)
}

/// The entries of a compound, and the brace after them. They are laid behind room for the presence field, which is written once
/// they are there.
#[cycle(kind_built)]
fn compound_built(
    cursor: &mut Cursor<'_>,
    slots: &TextSlots<'_>,
    out: &mut LaidBits<'_>,
) -> Option<()>
    requires { AreSlots (text_slots slots.now) }
    ensures { IfSome result (λ done. BuildsCompound (text_slots slots.now) cursor.old cursor.new out.old out.new) }
{
    let room = field_room(slots.as_slice().len());
    let at = out.leave(room)?;
    let marks = entries_built(cursor, slots, out)?;
    field_filled(&marks, at, room, out)
}

/// The value of the slot's subitem, where the subitem's name comes. It answers whether it does.
#[cycle(kind_built)]
#[inline(always)]
fn subitem_built(
    cursor: &mut Cursor<'_>,
    slot: &TextSlot<'_>,
    out: &mut LaidBits<'_>,
) -> Option<bool>
    requires { SlotsInBounds (slot_and (text_slot slot.now) no_slots) }
    ensures { IfSome result (λ came. BuildsSlot (text_slot slot.now) came cursor.old cursor.new out.old out.new) }
{
    match slot {
        TextSlot::Spare => Some(false),
        TextSlot::Named(held) => named_built(cursor, held, out),
        TextSlot::Sub { name, kind } => {
            if !cursor.takes_name(name) {
                return Some(false);
            }
            kind_built(cursor, kind, out)?;
            Some(true)
        }
    }
}

/// The name of a slot.
#[inline(always)]
fn name_of<'a>(slot: &'a TextSlot<'_>) -> Option<&'a Name> {
    match slot {
        TextSlot::Spare => None,
        TextSlot::Named(held) => Some(&held.name),
        TextSlot::Sub { name, .. } => Some(name),
    }
}

/// The first slot, from that index on, of which the subitem's name is that word. None comes where there is none.
fn slot_of(slots: &[TextSlot<'_>], from: usize, word: FrontWord) -> Option<usize>
    ensures { IfSome result (λ index. (from ≤ index) × (index < length slots.now)) }
{
    let mut index = from;
    while index < slots.len() {
        if let Some(name) = name_of(&slots[index])
            && word.is(name)
        {
            return Some(index);
        }
        index += 1;
    }
    None
}

/// The entries of a compound or a record, and the brace after them. It answers which slots they are of. The slots between two entries
/// are passed over by their names' numbers, and after the last entry no slot is looked at.
#[cycle(kind_built)]
pub fn entries_built(
    cursor: &mut Cursor<'_>,
    slots: &TextSlots<'_>,
    out: &mut LaidBits<'_>,
) -> Option<Presence>
    requires { AreSlots (text_slots slots.now) }
    ensures { IfSome result (λ marks. BuildsEntries (text_slots slots.now) marks cursor.old cursor.new out.old out.new) }
{
    let list = slots.as_slice();
    let mut marks = Presence::empty();
    let mut passed = 0;
    while !cursor.closes() {
        let index = slot_of(list, passed, cursor.word())?;
        passed = index + 1;
        if subitem_built(cursor, &list[index], out)? {
            marks.mark(passed as u32);
        }
    }
    Some(marks)
}
