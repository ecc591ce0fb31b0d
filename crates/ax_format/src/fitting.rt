//! Whether a value has a kind's shape. Nothing here takes memory.
ghost use Rattle.std.specs.Prelude.{◌≡◌, ◌^◌, ◌&&◌, nat_lt, map, length};
ghost use Rattle.ax_format.specs.Fitting.{number_fits, fixed_fits, member_fits, members_fit, lists_fit, parts_fit, each_fits, counted_fit, kind_fits, entries_fit};
ghost use Rattle.ax_format.specs.OfCode.{AreAfterSlot};
ghost use Rattle.ax_format.specs.Plain.{fixed_tree, member_tree, members_tree, part_tree, kind_tree, slot_tree, slots_tree, value_tree, values_tree, lists_tree, entries_tree};
ghost use Rattle.ax_format.specs.Tree.{value_count};
ghost use Rattle.ax_format.specs.Widths.{counter_width};
ghost use Rattle.std.specs.List.{list_all};

use crate::kind::{Counter, Fixed, Kind, Member, Members, Part, Parts, Slot, Slots};
use crate::value::{Entries, Entry, Lists, Value, Values};

/// Whether the number has at most that many bits.
fn is_below(number: u128, width: u32) -> bool
    ensures { result ≡ nat_lt number (2 ^ width) }
{
    if width >= 128 {
        return true;
    }
    number < 1u128 << width
}

/// Whether the value is a number of that many bits.
fn has_width(width: u32, value: &Value) -> bool
    ensures { result ≡ number_fits width (value_tree value.now) }
{
    match value {
        Value::Number(number) => is_below(*number, width),
        _ => false,
    }
}

#[cycle(fixed_fits)]
fn fits_fixed(fixed: &Fixed, value: &Value) -> bool
    ensures { result ≡ fixed_fits (fixed_tree fixed.now) (value_tree value.now) }
{
    match fixed {
        Fixed::Element { width, .. } => has_width(*width, value),
        Fixed::Group(members) => match value {
            Value::Group(values) => fits_members(members, values),
            _ => false,
        },
    }
}

#[cycle(fixed_fits)]
fn fits_member(member: &Member, value: &Value) -> bool
    ensures { result ≡ member_fits (member_tree member.now) (value_tree value.now) }
{
    match member {
        Member::Named { fixed, .. } => fits_fixed(fixed, value),
        Member::Spare { width } => has_width(*width, value),
    }
}

/// Whether there is one value for each member, of its shape.
#[cycle(fixed_fits)]
fn fits_members(members: &Members, values: &Values) -> bool
    ensures { result ≡ members_fit (members_tree members.now) (values_tree values.now) }
{
    let mut rest = values.as_slice();
    for member in members.as_slice() {
        let Some((value, later)) = rest.split_first() else {
            return false;
        };
        if !fits_member(member, value) {
            return false;
        }
        rest = later;
    }
    rest.is_empty()
}

/// Whether each list fits its part, as far as there are both.
fn fits_lists(parts: &[Part], lists: &[Values]) -> bool
    ensures { result ≡ lists_fit (map part_tree parts.now) (lists_tree lists.now) }
{
    let mut rest = lists;
    for part in parts {
        let Some((values, later)) = rest.split_first() else {
            return true;
        };
        if !fits_members(&part.members, values) {
            return false;
        }
        rest = later;
    }
    true
}

/// Whether there is a list for each of the first parts, at least one.
#[tactic(auto, using(crate::proofs::FittingLists::counts))]
fn fits_parts(parts: &Parts, lists: &Lists) -> bool
    ensures { result ≡ parts_fit (map part_tree parts.now) (lists_tree lists.now) }
{
    if lists.count() == 0 {
        return false;
    }
    if parts.count() < lists.count() {
        return false;
    }
    fits_lists(parts.as_slice(), lists.as_slice())
}

/// Whether each value fits the fixed kind.
fn fits_run(fixed: &Fixed, values: &[Value]) -> bool
    ensures { result ≡ each_fits (fixed_fits (fixed_tree fixed.now)) (values_tree values.now) }
{
    for value in values {
        if !fits_fixed(fixed, value) {
            return false;
        }
    }
    true
}

/// Whether there are octets of an explicit content, at most 254.
#[tactic(auto, using(crate::proofs::FittingLists::counts))]
fn fits_content(octets: &[u8]) -> bool
    ensures { result ≡ (nat_lt (length octets.now) 255 && list_all (λ x. nat_lt x 256) octets.now) }
{
    octets.len() < 255
}

/// Whether there are one or more values, and each fits the fixed kind.
#[tactic(auto, using(crate::proofs::FittingLists::counts))]
fn fits_by_fx(fixed: &Fixed, values: &Values) -> bool
    ensures { result ≡ (nat_lt 0 (value_count (values_tree values.now)) && each_fits (fixed_fits (fixed_tree fixed.now)) (values_tree values.now)) }
{
    if values.count() == 0 {
        return false;
    }
    fits_run(fixed, values.as_slice())
}

/// Whether the value has the kind's shape.
#[cycle(kind_fits)]
pub fn fits_kind(kind: &Kind, value: &Value) -> bool
    ensures { result ≡ kind_fits (kind_tree kind.now) (value_tree value.now) }
{
    match (kind, value) {
        (Kind::Fixed(fixed), value) => fits_fixed(fixed, value),
        (Kind::Extended { parts, .. }, Value::Extended(lists)) => fits_parts(parts, lists),
        (Kind::Counted { counter, inner }, Value::Repeat(values)) => {
            fits_counted(*counter, inner, values)
        }
        (Kind::ByFx(fixed), Value::Repeat(values)) => fits_by_fx(fixed, values),
        (Kind::Explicit, Value::Octets(octets)) => fits_content(octets.as_slice()),
        (Kind::Compound(slots), Value::Compound(entries)) => fits_slots(slots, entries),
        _ => false,
    }
}

/// Whether there are no more values than the counter holds, and each fits the inner kind.
#[cycle(kind_fits)]
fn fits_counted(counter: Counter, inner: &Kind, values: &Values) -> bool
    ensures { result ≡ counted_fit counter (kind_tree inner.now) (values_tree values.now) }
{
    if values.count() > counter.greatest() {
        return false;
    }
    fits_each(inner, values.as_slice())
}

#[cycle(kind_fits)]
fn fits_each(kind: &Kind, values: &[Value]) -> bool
    ensures { result ≡ each_fits (kind_fits (kind_tree kind.now)) (values_tree values.now) }
{
    for value in values {
        if !fits_kind(kind, value) {
            return false;
        }
    }
    true
}

/// Whether each entry is of one of the slots, of which the first is slot 1, in ascending order, and fits its kind.
#[cycle(kind_fits)]
fn fits_slots(slots: &Slots, entries: &Entries) -> bool
    ensures { result ≡ entries_fit 1 (slots_tree slots.now) (entries_tree entries.now) }
{
    let mut number: u64 = 1;
    let mut rest = entries.as_slice();
    for slot in slots.as_slice() {
        let Some(later) = after_slot(number, slot, rest) else {
            return false;
        };
        number += 1;
        rest = later;
    }
    rest.is_empty()
}

/// The entries after the one of this slot, if there is one. None comes where that doesn't fit.
#[cycle(kind_fits)]
fn after_slot<'e>(number: u64, slot: &Slot, entries: &'e [Entry]) -> Option<&'e [Entry]>
    ensures { AreAfterSlot number (slot_tree slot.now) entries.now result }
{
    let Slot::Sub { kind, .. } = slot else {
        return Some(entries);
    };
    match entries.split_first() {
        Some((entry, later)) if u64::from(entry.slot) == number => {
            if fits_kind(kind, &entry.value) {
                Some(later)
            } else {
                None
            }
        }
        _ => Some(entries),
    }
}
