//! The kinds of items and subitems, shown by one function each.
ghost use Rattle.std.specs.Prelude.{IfOk, IfErr};
ghost use Rattle.ax_format.specs.InBounds.{InBounds, SlotsInBounds};
ghost use Rattle.ax_held_kinds.specs.Held.{held_kind, held_slot, held_slots};
ghost use Rattle.ax_format.specs.Tree as Tree;
ghost use Rattle.ax_fspec.specs.Reading.{SlotInBounds};
ghost use Rattle.ax_text_form.specs.Listable.{KindListable, SlotListable, SlotsListable};
ghost use Rattle.ax_values.specs.SlotReading.{HasSlotFailed};
ghost use Rattle.ax_listing.specs.Shown.{FailsFrom, ShowsFrom, ShowsUnder, IsSlotShown, ShowsRepeated, ShowsSubitems};

use crate::paths::{set_named, set_numbered};
use crate::position::OctetPosition;
use crate::units::{show_alone, show_by_fx, show_extended, show_single};
use ax_format::{Counter, Name};
use ax_fspec::Presence;
use ax_held_kinds::{HeldKind, HeldSlot, HeldSlots, read_field};
use ax_octets::LinePath;
use ax_text_form::Lister;
use ax_values::{DecodeError, counter_at, explicit_content};

/// The lines of the value of a kind that begins at a position. Ok is the octet after it.
#[cycle(show_kind)]
pub(crate) fn show_value(
    lister: &mut Lister,
    kind: &HeldKind<'_>,
    from: OctetPosition<'_>,
    path: &LinePath,
) -> Result<u32, DecodeError>
    requires bounds { InBounds (held_kind kind.now) }
    requires listable { KindListable (held_kind kind.now) }
    ensures ok { IfOk result (λ end. ShowsFrom (held_kind kind.now) path.now from.entry end lister.old.out.octets lister.new.out.octets) }
    ensures err { IfErr result (FailsFrom (held_kind kind.now) from.entry) }
{
    match kind {
        HeldKind::Fixed(fixed) => show_alone(lister, fixed, from, path),
        HeldKind::Extended { last, parts } => show_extended(lister, *last, parts, from, path),
        HeldKind::Counted { counter, inner } => {
            show_counted(lister, *counter, inner, from, path)
        }
        HeldKind::ByFx(fixed) => show_by_fx(lister, fixed, from, path),
        HeldKind::Explicit => show_explicit(lister, from, path),
        HeldKind::Compound(slots) => show_compound(lister, slots, from, path),
    }
}

/// The line of an explicit item. Ok is the octet after it.
#[tactic(auto, using(ax_values::proofs::Continuing::errors))]
fn show_explicit(
    lister: &mut Lister,
    from: OctetPosition<'_>,
    path: &LinePath,
) -> Result<u32, DecodeError>
    requires bounds { InBounds (Tree.explicit) }
    ensures ok { IfOk result (λ end. ShowsFrom Tree.explicit path.now from.entry end lister.old.out.octets lister.new.out.octets) }
    ensures err { IfErr result (FailsFrom (Tree.explicit) from.entry) }
{
    let content = explicit_content(from.body, from.at)?;
    lister.content_at(content, path)?;
    Ok(from.at + 1 + content.len() as u32)
}

/// A counted or wide item: how many occurrences there are, and each of them. Ok is the octet after it.
#[cycle(show_kind)]
#[tactic(auto, using(crate::proofs::Leading::counts))]
fn show_counted(
    lister: &mut Lister,
    size: Counter,
    inner: &HeldKind<'_>,
    from: OctetPosition<'_>,
    path: &LinePath,
) -> Result<u32, DecodeError>
    requires bounds { InBounds (Tree.counted size (held_kind inner.now)) }
    requires listable { KindListable (held_kind inner.now) }
    ensures ok { IfOk result (λ end. ShowsFrom (Tree.counted size (held_kind inner.now)) path.now from.entry end lister.old.out.octets lister.new.out.octets) }
    ensures err { IfErr result (FailsFrom (Tree.counted size (held_kind inner.now)) from.entry) }
{
    lister.none_of(b"occurrences", path)?;
    let line = lister.len();
    let (end, count) = show_each(lister, size, inner, from, path)?;
    lister.set_count(line, count)?;
    Ok(end)
}

/// The lines of the occurrences of a counted or wide item. Ok is the octet after them, and their number.
#[cycle(show_kind)]
#[tactic(auto, using(ax_values::proofs::Continuing::errors))]
fn show_each(
    lister: &mut Lister,
    size: Counter,
    inner: &HeldKind<'_>,
    from: OctetPosition<'_>,
    path: &LinePath,
) -> Result<(u32, u32), DecodeError>
    requires bounds { InBounds (Tree.counted size (held_kind inner.now)) }
    requires listable { KindListable (held_kind inner.now) }
    ensures ok { IfOk result (λ r. ShowsRepeated (Tree.counted size (held_kind inner.now)) path.now from.entry r.0 lister.old.out.octets lister.new.out.octets r.1) }
    ensures err { IfErr result (FailsFrom (Tree.counted size (held_kind inner.now)) from.entry) }
{
    let count = counter_at(from.body, from.at, size)?;
    let mut here = from.at + size.octets();
    let mut each = lister.blank_path();
    for number in 0..count {
        set_numbered(&mut each, path, number)?;
        let next = OctetPosition {
            body: from.body,
            at: here,
        };
        here = show_value(lister, inner, next, &each)?;
    }
    Ok((here, count))
}

/// A compound: how many subitems are present, and each of them. Ok is the octet after it.
#[cycle(show_kind)]
#[tactic(auto, using(crate::proofs::Leading::counts))]
fn show_compound(
    lister: &mut Lister,
    slots: &HeldSlots<'_>,
    from: OctetPosition<'_>,
    path: &LinePath,
) -> Result<u32, DecodeError>
    requires bounds { InBounds (Tree.compound (held_slots slots.now)) }
    requires listable { SlotsListable (held_slots slots.now) }
    ensures ok { IfOk result (λ end. ShowsFrom (Tree.compound (held_slots slots.now)) path.now from.entry end lister.old.out.octets lister.new.out.octets) }
    ensures err { IfErr result (FailsFrom (Tree.compound (held_slots slots.now)) from.entry) }
{
    lister.none_of(b"subitems", path)?;
    let line = lister.len();
    let (end, count) = show_subitems(lister, slots, from, path)?;
    lister.set_count(line, count)?;
    Ok(end)
}

/// The lines of the marked subitems of a compound. Ok is the octet after them, and their number.
#[cycle(show_kind)]
#[tactic(auto, using(ax_values::proofs::Continuing::errors))]
fn show_subitems(
    lister: &mut Lister,
    slots: &HeldSlots<'_>,
    from: OctetPosition<'_>,
    path: &LinePath,
) -> Result<(u32, u32), DecodeError>
    requires bounds { InBounds (Tree.compound (held_slots slots.now)) }
    requires listable { SlotsListable (held_slots slots.now) }
    ensures ok { IfOk result (λ r. ShowsSubitems (held_slots slots.now) path.now from.entry r.0 lister.old.out.octets lister.new.out.octets r.1) }
    ensures err { IfErr result (FailsFrom (Tree.compound (held_slots slots.now)) from.entry) }
{
    let all = slots.as_slice();
    let mut left = Presence::empty();
    let mut here = read_field(all, from.body, from.at, &mut left)?;
    let mut count = 0;
    while let Some(number) = left.take_first() {
        let next = OctetPosition {
            body: from.body,
            at: here,
        };
        here = show_slot(lister, &all[number as usize - 1], next, path)?;
        count += 1;
    }
    Ok((here, count))
}

/// The lines of the subitem or the item of a slot, under a path. Ok is the octet after it.
#[cycle(show_kind)]
#[tactic(auto, using(ax_values::proofs::Continuing::errors, crate::proofs::SlotLines::slot_ways))]
pub(crate) fn show_slot(
    lister: &mut Lister,
    slot: &HeldSlot<'_>,
    from: OctetPosition<'_>,
    path: &LinePath,
) -> Result<u32, DecodeError>
    requires bounds { SlotInBounds (held_slot slot.now) }
    requires listable { SlotListable (held_slot slot.now) }
    ensures ok { IfOk result (λ end. IsSlotShown (held_slot slot.now) path.now from.entry.body.now from.entry.at end lister.old.out.octets lister.new.out.octets) }
    ensures err { IfErr result (HasSlotFailed (held_slot slot.now) from.entry.body.now from.entry.at) }
{
    match slot {
        HeldSlot::Spare => Ok(from.at),
        HeldSlot::Sub { name, kind } => {
            let end = show_under(lister, name, kind, from, path)?;
            Ok(end)
        }
    }
}

/// The lines of the value of a kind under a path and its name. Ok is the octet after it. A fixed kind's path is made only
/// where it has members.
#[cycle(show_kind)]
#[tactic(auto, using(ax_values::proofs::Continuing::errors, crate::proofs::SlotLines::under_ways))]
fn show_under(
    lister: &mut Lister,
    name: &Name,
    kind: &HeldKind<'_>,
    from: OctetPosition<'_>,
    path: &LinePath,
) -> Result<u32, DecodeError>
    requires bounds { InBounds (held_kind kind.now) }
    requires listable { KindListable (held_kind kind.now) }
    ensures ok { IfOk result (λ end. ShowsUnder (held_kind kind.now) path.now name.now from.entry end lister.old.out.octets lister.new.out.octets) }
    ensures err { IfErr result (FailsFrom (held_kind kind.now) from.entry) }
{
    if let HeldKind::Fixed(fixed) = kind {
        return show_single(lister, name, fixed, from, path);
    }
    let mut inner = lister.blank_path();
    set_named(&mut inner, path, name)?;
    let end = show_value(lister, kind, from, &inner)?;
    Ok(end)
}
