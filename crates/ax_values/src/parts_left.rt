//! The parts of an extended or closed item that are present, one after the other.
ghost use Rattle.std.specs.Prelude.{◌≡◌, ◌+◌, ◌*◌, ◌≤◌, true, false, [], ◌∷◌, length, take, drop, map, IfOk, IfErr, IfSome, IfNone};
ghost use Rattle.ax_bits.specs.Bits.{bits};
ghost use Rattle.ax_format.specs.InBounds.{InBounds};
ghost use Rattle.ax_format.specs.Lengths.{capped};
ghost use Rattle.ax_format.specs.Plain.{part_tree};
ghost use Rattle.ax_format.specs.Sizes.{longest_body};
ghost use Rattle.ax_format.specs.Tree as Tree;
ghost use Rattle.ax_format.specs.Tree.{MembersTree};
ghost use Rattle.ax_format.specs.Widths.{members_width};
ghost use Rattle.ax_fspec.specs.Reading.{fx_bit};
ghost use Rattle.ax_values.specs.Cursor.{IsReady, Meets, MeetsFault};

use crate::units::unit_end;
use ax_format::{BodyCause, BodyFault, LastPart, Part};
use ax_fspec::has_fx;

/// A part of an extended or closed item, as far as its octets in a body are asked for.
pub trait SizedPart {
    // Its members.
    ghost tree: { Self → MembersTree };

    /// The width of its members in bits, capped at 2^64 - 1 where it is more.
    fn members_width(&self) -> u64
        ensures { result ≡ capped (members_width (tree self.now)) };
}

impl SizedPart for Part {
    ghost tree = { λ part. part_tree part };

    #[inline]
    fn members_width(&self) -> u64 {
        self.width()
    }
}

/// The parts that are left of an extended or closed item, of which the next one begins at octet `at` of the body.
#[derive(Drop)]
pub struct PartsLeft<'p, 'b, P: SizedPart> {
    /// Whether the last of them has an FX bit: that of an extended item has, that of a closed one has none.
    pub last: LastPart,
    pub parts: &'p [P],
    /// How many of the parts went before.
    pub index: usize,
    pub body: &'b [u8],
    pub at: u32,
    /// Whether another part is present: the one before has an FX bit, and it is set.
    pub more: bool,
}

/// Whether the FX bit is set that stands at bit `at` of the body, where `fx` is 1; where it is 0, there is no FX bit.
#[inline(always)]
fn is_continued(body: &[u8], at: u32, fx: u32) -> bool
    requires at { at + fx ≤ 8 * length body.now }
    ensures with_fx { fx ≡ 1 → take 1 (drop at (bits body.now)) ≡ fx_bit result ∷ [] }
    ensures without_fx { fx ≡ 0 → result ≡ false }
{
    fx == 1 && has_fx(body, at)
}

impl<'p, 'b, P: SizedPart> PartsLeft<'p, 'b, P> {
    /// Those from octet `at` on.
    #[inline]
    pub fn of(last: LastPart, parts: &'p [P], body: &'b [u8], at: u32) -> PartsLeft<'p, 'b, P>
        requires bounds { InBounds (Tree.extended last (map P.tree parts.now)) }
        requires body { length body.now ≤ longest_body }
        requires at { at ≤ length body.now }
        ensures last { result.last ≡ last }
        ensures parts { drop result.index result.parts.now ≡ parts.now }
        ensures body { result.body.now ≡ body.now }
        ensures at { result.at ≡ at }
        ensures more { result.more ≡ true }
        ensures ready { IsReady P.tree result }
    {
        PartsLeft {
            last,
            parts,
            index: 0,
            body,
            at,
            more: true,
        }
    }

    /// The next part that is present, and the first bit of its members. A last part without an FX bit ends with its members,
    /// and nothing comes after it.
    #[inline]
    pub fn next(&mut self) -> Result<Option<(&'p P, u32)>, BodyFault>
        requires ready { IsReady P.tree self.old }
        ensures some { IfOk result (λ r. IfSome r (λ u. Meets P.tree self.old u.0.now self.new)) }
        ensures bit { IfOk result (λ r. IfSome r (λ u. u.1 ≡ 8 * self.old.at)) }
        ensures ready { IfOk result (λ r. IsReady P.tree self.new) }
        ensures last { self.new.last ≡ self.old.last }
        ensures body { self.new.body.now ≡ self.old.body.now }
        ensures end { IfOk result (λ r. IfNone r (self.old.more ≡ false)) }
        ensures at { IfOk result (λ r. IfNone r (self.new.at ≡ self.old.at)) }
        ensures fault { IfErr result (MeetsFault P.tree self.old) }
    {
        if !self.more {
            return Ok(None);
        }
        let Some(part) = self.parts.get(self.index) else {
            return Ok(None);
        };
        let others = self.parts.len() - self.index - 1;
        let bit = 8 * self.at;
        let width = part.members_width() as u32;
        let fx = self.last.fx_width(others);
        let end = unit_end(self.body, self.at, width + fx)?;
        let more = is_continued(self.body, bit + width, fx);
        if more && others == 0 {
            return Err(BodyFault {
                cause: BodyCause::ExtensionPastEnd,
                bit: 8 * end - 1,
            });
        }
        self.index += 1;
        self.at = end;
        self.more = more;
        Ok(Some((part, bit)))
    }
}
