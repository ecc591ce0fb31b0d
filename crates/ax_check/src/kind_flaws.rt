//! The flaws of kinds.
ghost use Rattle.std.specs.Prelude.{◌≡◌, ◌≤◌, ◌++◌, [], map, nat_lt, OnOk};
ghost use Rattle.ax_format.specs.Flaws.{flaw_where, whole_flaws, parts_flaws, kind_flaws, slots_flaws, names_with, is_too_wide, is_nothing};
ghost use Rattle.ax_format.specs.Plain.{fixed_tree, members_tree, part_tree, kind_tree, slot_tree, slots_tree};
ghost use Rattle.ax_format.specs.Tree.{by_fx, compound};
ghost use Rattle.ax_format.specs.declared.flaw.FlawKind.TheVariants.{BodyNotOctets, TooWide};
ghost use Rattle.ax_check.specs.Members.{count_flaws, extended_flaws, numbered_flaws, slot_flaws, with_slot};
ghost use Rattle.ax_check.specs.Names.{listed, AreSame};

use crate::fixed_flaws::{enter_at, find_in_fixed, find_in_members, note};
use crate::names::Names;
use crate::texts::at_body;
use crate::widths::{bits_over, bits_over_members};
use ax_format::{Fixed, FlawKind, Flaws, Kind, LastPart, Part, Parts, Slot, Slots, Text, at_part};
use std::alloc::{AllocError, Global};

/// The widest fixed kind or part, in bits: the longest body.
const WIDEST: u64 = 524_256;

/// The most slots of a compound or a UAP.
const MOST_SLOTS: u32 = 126;

/// A width in bits, and whether what has it breaks the rule that it is whole octets.
#[derive(Clone, Copy)]
struct Width {
    bits: u64,
    broken: bool,
}

/// The flaws of a width: the one named, where it breaks that rule, and that of one past the longest body.
fn note_width(
    alloc: Global,
    found: &mut Flaws,
    width: Width,
    kind: FlawKind,
    path: &Text,
) -> Result<(), AllocError>
    ensures { OnOk result (found.new ≡ found.old ++ (flaw_where width.broken kind path.now ++ flaw_where (nat_lt 524256 width.bits) TooWide path.now)) }
{
    note(alloc, found, width.broken, kind, path)?;
    note(alloc, found, width.bits > WIDEST, FlawKind::TooWide, path)
}

/// The flaws of a number of slots: there are none, or more than there may be.
pub(crate) fn note_count(
    alloc: Global,
    found: &mut Flaws,
    slots: u32,
    path: &Text,
) -> Result<(), AllocError>
    ensures { OnOk result (found.new ≡ found.old ++ count_flaws path.now slots) }
{
    note(alloc, found, slots == 0, FlawKind::Empty, path)?;
    note(
        alloc,
        found,
        slots > MOST_SLOTS,
        FlawKind::TooManySlots,
        path,
    )
}

/// The flaws of a fixed kind that is to be whole octets, or else has the flaw named.
#[tactic(auto, using(crate::proofs::WholeFlaws::wholes))]
fn find_in_whole(
    alloc: Global,
    found: &mut Flaws,
    broken: FlawKind,
    path: &Text,
    fixed: &Fixed,
) -> Result<(), AllocError>
    ensures { OnOk result (found.new ≡ found.old ++ whole_flaws broken path.now (fixed_tree fixed.now)) }
{
    let width = Width {
        bits: fixed.width(),
        broken: bits_over(fixed) != 0,
    };
    note_width(alloc, found, width, broken, path)?;
    find_in_fixed(alloc, found, path, fixed)
}

/// The flaws of a by-FX kind, whose body has an FX bit in each occurrence.
#[tactic(auto, using(crate::proofs::WholeFlaws::units))]
fn find_in_by_fx(
    alloc: Global,
    found: &mut Flaws,
    broken: FlawKind,
    path: &Text,
    fixed: &Fixed,
) -> Result<(), AllocError>
    ensures { OnOk result (found.new ≡ found.old ++ kind_flaws broken path.now (by_fx (fixed_tree fixed.now))) }
{
    let body = at_body(alloc, path)?;
    let width = Width {
        bits: fixed.width(),
        broken: bits_over(fixed) != 7,
    };
    note_width(alloc, found, width, FlawKind::BodyNotOctets, &body)?;
    find_in_fixed(alloc, found, &body, fixed)
}

/// Whether a part with so many FX bits has no bit at all.
#[tactic(auto, using(crate::proofs::FlawLists::no_member))]
fn has_no_bit(part: &Part, fx: u32) -> bool
    ensures { result ≡ is_nothing fx (part_tree part.now) }
{
    let bare = part.members.count() == 0;
    fx == 0 && bare
}

/// A part of an extended or closed kind: its number, from 0, and how many FX bits it has, none or one.
#[derive(Clone, Copy)]
pub(crate) struct NumberedPart<'s> {
    part: &'s Part,
    number: u32,
    fx: u32,
}

/// The flaws of a part after parts whose members have these names, which gain its own.
#[tactic(auto, using(crate::proofs::WholeFlaws::parts))]
fn find_in_part<'s>(
    alloc: Global,
    found: &mut Flaws,
    path: &Text,
    names: &mut Names<'s>,
    numbered: NumberedPart<'s>,
) -> Result<(), AllocError>
    requires { numbered.fx ≤ 1 }
    ensures flaws { OnOk result (found.new ≡ found.old ++ numbered_flaws path.now (listed names.old.set) numbered.entry) }
    ensures names { OnOk result (AreSame (listed names.new.set) (names_with (listed names.old.set) (part_tree numbered.entry.part.now))) }
{
    let NumberedPart { part, number, fx } = numbered;
    let place = at_part(alloc, path, number)?;
    let width = Width {
        bits: part.width(),
        broken: (bits_over_members(&part.members) + fx) % 8 != 0,
    };
    note_width(alloc, found, width, FlawKind::PartNotOctets, &place)?;
    note(alloc, found, has_no_bit(part, fx), FlawKind::Empty, &place)?;
    find_in_members(alloc, found, path, names, &part.members)
}

/// The flaws of an extended or closed kind.
#[tactic(auto, using(crate::proofs::PartLists::parts))]
fn find_in_parts(
    alloc: Global,
    found: &mut Flaws,
    path: &Text,
    last: LastPart,
    parts: &Parts,
) -> Result<(), AllocError>
    ensures { OnOk result (found.new ≡ found.old ++ extended_flaws path.now last (map part_tree parts.now)) }
{
    note(alloc, found, parts.count() == 0, FlawKind::Empty, path)?;
    let mut names = Names::new(alloc);
    let mut number: u32 = 0;
    for part in parts.as_slice() {
        let others = parts.count() - number - 1;
        let fx = last.fx_width(others as usize);
        let numbered = NumberedPart { part, number, fx };
        find_in_part(alloc, found, path, &mut names, numbered)?;
        number += 1;
    }
    Ok(())
}

/// The flaws of a kind. A fixed kind that isn't whole octets has the flaw named.
#[cycle(kind)]
pub(crate) fn find_in_kind(
    alloc: Global,
    found: &mut Flaws,
    broken: FlawKind,
    path: &Text,
    kind: &Kind,
) -> Result<(), AllocError>
    ensures { OnOk result (found.new ≡ found.old ++ kind_flaws broken path.now (kind_tree kind.now)) }
{
    match kind {
        Kind::Fixed(fixed) => find_in_whole(alloc, found, broken, path, fixed),
        Kind::Extended { last, parts } => find_in_parts(alloc, found, path, *last, parts),
        Kind::Counted { inner, .. } => {
            let body = at_body(alloc, path)?;
            find_in_kind(alloc, found, FlawKind::BodyNotOctets, &body, inner)
        }
        Kind::ByFx(fixed) => find_in_by_fx(alloc, found, broken, path, fixed),
        Kind::Explicit => Ok(()),
        Kind::Compound(slots) => find_in_slots(alloc, found, broken, path, slots),
    }
}

/// The flaws of one slot after others of these names, which gain its own.
#[cycle(kind)]
fn find_in_slot<'s>(
    alloc: Global,
    found: &mut Flaws,
    path: &Text,
    names: &mut Names<'s>,
    slot: &'s Slot,
) -> Result<(), AllocError>
    ensures flaws { OnOk result (found.new ≡ found.old ++ slot_flaws path.now (listed names.old.set) (slot_tree slot.now)) }
    ensures names { OnOk result (AreSame (listed names.new.set) (with_slot (listed names.old.set) (slot_tree slot.now))) }
{
    match slot {
        Slot::Spare => Ok(()),
        Slot::Sub { name, kind } => {
            let (path, known) = enter_at(alloc, path, names, name)?;
            note(alloc, found, known, FlawKind::DuplicateName, &path)?;
            find_in_kind(alloc, found, FlawKind::NotOctets, &path, kind)
        }
    }
}

/// The flaws of a compound.
#[cycle(kind)]
#[tactic(auto, using(crate::proofs::SlotLists::slots))]
fn find_in_slots(
    alloc: Global,
    found: &mut Flaws,
    broken: FlawKind,
    path: &Text,
    slots: &Slots,
) -> Result<(), AllocError>
    ensures { OnOk result (found.new ≡ found.old ++ kind_flaws broken path.now (compound (slots_tree slots.now))) }
{
    note_count(alloc, found, slots.count(), path)?;
    let mut names = Names::new(alloc);
    for slot in slots.as_slice() {
        find_in_slot(alloc, found, path, &mut names, slot)?;
    }
    Ok(())
}
