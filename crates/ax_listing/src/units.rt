//! Kinds whose units are runs of a known length: fixed kinds, the parts of extended and closed items, occurrences by FX.
ghost use Rattle.std.specs.Prelude.{map, IfOk, IfErr, OnOk};
ghost use Rattle.std.specs.List.{AllByRecursion};
ghost use Rattle.ax_format.specs.InBounds.{InBounds, FixedInBounds};
ghost use Rattle.ax_held_kinds.specs.Held.{held_part};
ghost use Rattle.ax_held_kinds.specs.HeldFixed.{held_fixed};
ghost use Rattle.ax_format.specs.Tree as Tree;
ghost use Rattle.ax_format.specs.Widths.{width};
ghost use Rattle.ax_text_form.specs.Listable.{FixedListable, MembersListable};
ghost use Rattle.ax_text_form.specs.ShowText.{occurrence};
ghost use Rattle.ax_listing.specs.Shown.{FailsFrom, ShowsFrom, ShowsUnder, ShowsFixed, ShowsRepeated, ShowsParts};
ghost use Rattle.ax_listing.specs.Stopped.{IsBitAfter, IsStopped};

use crate::fixed::{show_fixed, show_members, show_named};
use crate::paths::set_numbered;
use crate::position::{BitPosition, OctetPosition};
use crate::stop::FixedStop;
use ax_format::{LastPart, Name};
use ax_held_kinds::{HeldFixed, HeldParts};
use ax_octets::LinePath;
use ax_text_form::Lister;
use ax_values::{DecodeError, PartsLeft, has_fx};

/// The lines of a fixed kind that stands by itself. Ok is the octet after it.
#[tactic(auto, using(ax_values::proofs::Continuing::errors, ax_fspec::proofs::AtOctets::fixed_fails))]
pub(crate) fn show_alone(
    lister: &mut Lister,
    fixed: &HeldFixed<'_>,
    from: OctetPosition<'_>,
    path: &LinePath,
) -> Result<u32, DecodeError>
    requires bounds { InBounds (Tree.fixed (held_fixed fixed.now)) }
    requires listable { FixedListable (held_fixed fixed.now) }
    ensures ok { IfOk result (λ end. ShowsFrom (Tree.fixed (held_fixed fixed.now)) path.now from.entry end lister.old.out.octets lister.new.out.octets) }
    ensures err { IfErr result (FailsFrom (Tree.fixed (held_fixed fixed.now)) from.entry) }
{
    let bits = BitPosition {
        body: from.body,
        at: 8 * from.at,
    };
    match show_fixed(lister, fixed, bits, path) {
        Ok(bit) => Ok(bit / 8),
        Err(stop) => Err(stop.of_unit(from.at)),
    }
}

/// The lines of a fixed kind under a path and its name. Ok is the octet after it.
#[tactic(auto, using(ax_values::proofs::Continuing::errors, ax_fspec::proofs::AtOctets::fixed_fails))]
pub(crate) fn show_single(
    lister: &mut Lister,
    name: &Name,
    fixed: &HeldFixed<'_>,
    from: OctetPosition<'_>,
    path: &LinePath,
) -> Result<u32, DecodeError>
    requires bounds { InBounds (Tree.fixed (held_fixed fixed.now)) }
    requires listable { FixedListable (held_fixed fixed.now) }
    ensures ok { IfOk result (λ end. ShowsUnder (Tree.fixed (held_fixed fixed.now)) path.now name.now from.entry end lister.old.out.octets lister.new.out.octets) }
    ensures err { IfErr result (FailsFrom (Tree.fixed (held_fixed fixed.now)) from.entry) }
{
    let bits = BitPosition {
        body: from.body,
        at: 8 * from.at,
    };
    match show_named(lister, name, fixed, bits, path) {
        Ok(bit) => Ok(bit / 8),
        Err(stop) => Err(stop.of_unit(from.at)),
    }
}

/// The lines of the parts that are present, the last of which may have no FX bit. Ok is the octet after them, and their
/// number.
#[tactic(auto, using(ax_values::proofs::Continuing::errors))]
fn show_parts(
    lister: &mut Lister,
    last: LastPart,
    parts: &HeldParts<'_>,
    from: OctetPosition<'_>,
    path: &LinePath,
) -> Result<(u32, u32), DecodeError>
    requires bounds { InBounds (Tree.extended last (map held_part parts.now)) }
    requires listable { AllByRecursion MembersListable (map held_part parts.now) }
    ensures ok { IfOk result (λ r. ShowsParts last (map held_part parts.now) path.now from.entry r.0 lister.old.out.octets lister.new.out.octets r.1) }
    ensures err { IfErr result (FailsFrom (Tree.extended last (map held_part parts.now)) from.entry) }
{
    let mut left = PartsLeft::of(last, parts.as_slice(), from.body, from.at);
    let mut count = 0;
    while let Some((part, first)) = left.next()? {
        let bits = BitPosition {
            body: from.body,
            at: first,
        };
        if let Err(stop) = show_members(lister, &part.members, bits, path) {
            return Err(stop.of_unit(first / 8));
        }
        count += 1;
    }
    Ok((left.at, count))
}

/// An extended or closed item: how many parts are present, and their members. Ok is the octet after it.
#[tactic(auto, using(crate::proofs::Leading::counts))]
pub(crate) fn show_extended(
    lister: &mut Lister,
    last: LastPart,
    parts: &HeldParts<'_>,
    from: OctetPosition<'_>,
    path: &LinePath,
) -> Result<u32, DecodeError>
    requires bounds { InBounds (Tree.extended last (map held_part parts.now)) }
    requires listable { AllByRecursion MembersListable (map held_part parts.now) }
    ensures ok { IfOk result (λ end. ShowsFrom (Tree.extended last (map held_part parts.now)) path.now from.entry end lister.old.out.octets lister.new.out.octets) }
    ensures err { IfErr result (FailsFrom (Tree.extended last (map held_part parts.now)) from.entry) }
{
    lister.none_of(b"parts", path)?;
    let line = lister.len();
    let (end, count) = show_parts(lister, last, parts, from, path)?;
    lister.set_count(line, count)?;
    Ok(end)
}

/// The lines of an occurrence of that number, in the bits from there on. Ok is the bit after them.
#[tactic(auto, using(crate::proofs::UnitLines::occurrences_shown, crate::proofs::Stops::stops))]
fn show_occurrence(
    lister: &mut Lister,
    fixed: &HeldFixed<'_>,
    number: u32,
    from: BitPosition<'_>,
    path: &LinePath,
) -> Result<u32, FixedStop>
    requires bounds { FixedInBounds (held_fixed fixed.now) }
    requires listable { FixedListable (held_fixed fixed.now) }
    ensures lines { OnOk result (ShowsFixed (held_fixed fixed.now) (occurrence path.now number) from.entry lister.old.out.octets lister.new.out.octets) }
    ensures end { IfOk result (IsBitAfter from.entry (width (held_fixed fixed.now))) }
    ensures stop { IfErr result (IsStopped from.entry (width (held_fixed fixed.now))) }
{
    let mut inner = lister.blank_path();
    set_numbered(&mut inner, path, number)?;
    let end = show_fixed(lister, fixed, from, &inner)?;
    Ok(end)
}

/// The lines of the occurrences by FX. Ok is the octet after them, and their number.
#[tactic(auto, using(ax_values::proofs::Continuing::errors))]
fn show_run(
    lister: &mut Lister,
    fixed: &HeldFixed<'_>,
    from: OctetPosition<'_>,
    path: &LinePath,
) -> Result<(u32, u32), DecodeError>
    requires bounds { InBounds (Tree.by_fx (held_fixed fixed.now)) }
    requires listable { FixedListable (held_fixed fixed.now) }
    ensures ok { IfOk result (λ r. ShowsRepeated (Tree.by_fx (held_fixed fixed.now)) path.now from.entry r.0 lister.old.out.octets lister.new.out.octets r.1) }
    ensures err { IfErr result (FailsFrom (Tree.by_fx (held_fixed fixed.now)) from.entry) }
{
    let mut here = from.at;
    let mut count = 0;
    loop {
        let bits = BitPosition {
            body: from.body,
            at: 8 * here,
        };
        let bit = match show_occurrence(lister, fixed, count, bits, path) {
            Ok(bit) => bit,
            Err(stop) => return Err(stop.of_unit(here)),
        };
        count += 1;
        let end = bit / 8 + 1;
        if !has_fx(from.body, bit) {
            return Ok((end, count));
        }
        here = end;
    }
}

/// A by-FX item: how many occurrences there are, and each of them. Ok is the octet after it.
#[tactic(auto, using(crate::proofs::Leading::counts))]
pub(crate) fn show_by_fx(
    lister: &mut Lister,
    fixed: &HeldFixed<'_>,
    from: OctetPosition<'_>,
    path: &LinePath,
) -> Result<u32, DecodeError>
    requires bounds { InBounds (Tree.by_fx (held_fixed fixed.now)) }
    requires listable { FixedListable (held_fixed fixed.now) }
    ensures ok { IfOk result (λ end. ShowsFrom (Tree.by_fx (held_fixed fixed.now)) path.now from.entry end lister.old.out.octets lister.new.out.octets) }
    ensures err { IfErr result (FailsFrom (Tree.by_fx (held_fixed fixed.now)) from.entry) }
{
    lister.none_of(b"occurrences", path)?;
    let line = lister.len();
    let (end, count) = show_run(lister, fixed, from, path)?;
    lister.set_count(line, count)?;
    Ok(end)
}
