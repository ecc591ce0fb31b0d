//! Units of a known length: fixed kinds, parts, occurrences by FX, explicit contents.
ghost use Rattle.std.specs.Prelude.{◌≡◌, ◌⊎◌, ◌↔◌, ◌+◌, ◌-◌, ◌*◌, ◌%◌, ◌<◌, ◌≤◌, length, get_or, Bool, IfSome, IfNone, IsTrue};
ghost use Rattle.ax_format.specs.InBounds.{InBounds};
ghost use Rattle.ax_format.specs.Tree as Tree;
ghost use Rattle.ax_format.specs.Widths.{width, members_width};
ghost use Rattle.ax_format.specs.declared.fault.BodyCause.TheVariants as Cause;
ghost use Rattle.ax_codec.specs.Meaning.{meanings, linked, fixed_of, part_of};
ghost use Rattle.ax_codec.specs.Table.{IsTable, LinksWithin};
ghost use Rattle.ax_walk.specs.Walking.{WalksFrom, FailsFrom, parts_kind, fx_kind};

use crate::notes::{Notes, fail};
use crate::start::Start;
use ax_codec::Node;
use ax_format::{BodyCause, LastPart};
use ax_fspec::{ends_with_fx, run_end};
use ax_values::explicit_content;

/// The octet after a unit of `width` bits, whole octets. None comes exactly where the body ends before it, and that is noted.
#[inline(always)]
pub(crate) fn run(start: Start<'_>, width: u32, notes: &mut Notes) -> Option<u32>
    requires { (width % 8 ≡ 0) × (width ≤ 524264) }
    ensures end { IfSome result (λ end. (start.entry.at ≤ end) × (end ≤ length start.entry.body.now) × (width ≡ 8 * (end - start.entry.at))) }
    ensures short { IfNone result (8 * (length start.entry.body.now - start.entry.at) < width) }
    ensures fault { IfNone result (notes.new.fault ≡ record { cause = Cause.RunsOut; bit = 8 * start.entry.at }) }
    ensures least { notes.new.least ≡ notes.old.least }
{
    let end = run_end(start.body, start.at, width);
    if end.is_none() {
        fail(notes, BodyCause::RunsOut, 8 * start.at);
    }
    end
}

/// The width of the fixed kind that a link leads to.
#[inline]
#[tactic(auto, using(ax_codec::proofs::Tables::widths))]
pub(crate) fn fixed_width(nodes: &[Node], link: u32) -> u32
    requires table { IsTable nodes.now }
    requires link { (0 < link) × (link ≤ length nodes.now) }
    ensures { result ≡ width (fixed_of (linked (meanings nodes.now) link)) }
{
    nodes[link as usize - 1].fixed_width()
}

/// The width of the part that a link leads to, without its FX bit.
#[inline]
#[tactic(auto, using(ax_codec::proofs::Tables::widths))]
pub(crate) fn part_width(nodes: &[Node], link: u32) -> u32
    requires table { IsTable nodes.now }
    requires link { (0 < link) × (link ≤ length nodes.now) }
    ensures { result ≡ members_width (part_of (linked (meanings nodes.now) link)) }
{
    nodes[link as usize - 1].part_width()
}

/// Whether no other part follows one that has `fx` FX bits and ends before octet `end`: it has none, or a clear one.
#[inline(always)]
pub(crate) fn is_last_part(body: &[u8], end: u32, fx: u32) -> bool
    requires { (0 < end) × (end ≤ length body.now) }
    ensures { IsTrue result ↔ ((fx ≡ 0) ⊎ (get_or body.now (end - 1) 0 % 2 ≡ 0)) }
{
    fx == 0 || !ends_with_fx(body, end - 1)
}

/// The octet after an extended item of which no part follows the first, whose octets are there. None says nothing. It spares most of
/// these items a call.
#[inline(always)]
pub(crate) fn first_part_end(
    nodes: &[Node],
    last: LastPart,
    parts: &[u32],
    start: Start<'_>,
) -> Option<u32>
    requires table { IsTable nodes.now }
    requires links { LinksWithin (length nodes.now) parts.now }
    requires bounds { InBounds (parts_kind nodes.now last parts.now) }
    ensures { IfSome result (λ end. (least : Bool) → WalksFrom (parts_kind nodes.now last parts.now) start.entry end least) }
{
    let Some((part, later)) = parts.split_first() else {
        return None;
    };
    let fx = last.fx_width(later.len());
    let end = run_end(start.body, start.at, part_width(nodes, *part) + fx)?;
    if is_last_part(start.body, end, fx) {
        Some(end)
    } else {
        None
    }
}

/// The octet after the parts that are present.
pub(crate) fn walk_parts(
    nodes: &[Node],
    last: LastPart,
    parts: &[u32],
    start: Start<'_>,
    notes: &mut Notes,
) -> Option<u32>
    requires table { IsTable nodes.now }
    requires links { LinksWithin (length nodes.now) parts.now }
    requires bounds { InBounds (parts_kind nodes.now last parts.now) }
    ensures end { IfSome result (λ end. WalksFrom (parts_kind nodes.now last parts.now) start.entry end notes.new.least) }
    ensures fault { IfNone result (FailsFrom (parts_kind nodes.now last parts.now) start.entry notes.new.fault) }
    ensures least { notes.new.least ≡ notes.old.least }
{
    let body = start.body;
    let mut left = parts;
    let mut here = start.at;
    while let Some((part, later)) = left.split_first() {
        let fx = last.fx_width(later.len());
        let end = run(
            Start { body, at: here },
            part_width(nodes, *part) + fx,
            notes,
        )?;
        if is_last_part(body, end, fx) {
            return Some(end);
        }
        if later.is_empty() {
            fail(notes, BodyCause::ExtensionPastEnd, 8 * end - 1);
            return None;
        }
        left = later;
        here = end;
    }
    None
}

/// The octet after the occurrences by FX.
pub(crate) fn walk_run(
    nodes: &[Node],
    inner: u32,
    start: Start<'_>,
    notes: &mut Notes,
) -> Option<u32>
    requires table { IsTable nodes.now }
    requires link { (0 < inner) × (inner ≤ length nodes.now) }
    requires bounds { InBounds (fx_kind nodes.now inner) }
    ensures end { IfSome result (λ end. WalksFrom (fx_kind nodes.now inner) start.entry end notes.new.least) }
    ensures fault { IfNone result (FailsFrom (fx_kind nodes.now inner) start.entry notes.new.fault) }
    ensures least { notes.new.least ≡ notes.old.least }
{
    let width = fixed_width(nodes, inner);
    let body = start.body;
    let mut here = start.at;
    loop {
        let end = run(Start { body, at: here }, width + 1, notes)?;
        if !ends_with_fx(body, end - 1) {
            return Some(end);
        }
        here = end;
    }
}

/// The octet after an explicit item.
pub(crate) fn walk_explicit(start: Start<'_>, notes: &mut Notes) -> Option<u32>
    ensures end { IfSome result (λ end. WalksFrom Tree.explicit start.entry end notes.new.least) }
    ensures fault { IfNone result (FailsFrom Tree.explicit start.entry notes.new.fault) }
    ensures least { notes.new.least ≡ notes.old.least }
{
    match explicit_content(start.body, start.at) {
        Ok(content) => Some(start.at + 1 + content.len() as u32),
        Err(fault) => {
            fail(notes, fault.cause, fault.bit);
            None
        }
    }
}
