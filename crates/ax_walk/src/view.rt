//! Bodies that spell records.
ghost use Rattle.std.specs.Prelude.{◌≡◌, ◌≤◌, false, length, IfOk, IfErr};
ghost use Rattle.ax_format.specs.Sizes.{longest_body};
ghost use Rattle.ax_codec.specs.Table.{record_kind_at};
ghost use Rattle.ax_walk.specs.Left.{records_left};
ghost use Rattle.ax_walk.specs.Pieces.{ArePieces, ArePieces-prop};
ghost use Rattle.ax_walk.specs.Views.{IsLeast, IsLeast-prop, SpellsSome, FailsThere, IsHonestThere, CountsRecords, SpellEach};

use crate::notes::Notes;
use crate::octets::walk_with;
use crate::record_rows::RecordRows;
use crate::records::Records;
use crate::start::Start;
use ax_codec::Codec;
use ax_format::BodyFault;

/// A body that spells records, and the codec that it was scanned under.
#[derive(Drop)]
pub struct BlockView<'c, 'a> {
    pub(crate) codec: &'c Codec,
    pub(crate) body: &'a [u8],
    pub(crate) count: u32,
    least: bool,
    ghost canonical: { IsLeast codec.now body.now least } by { IsLeast-prop codec.now body.now least },
    ghost records: { ArePieces false (record_kind_at codec.now.nodes codec.now.slots) count body.now } by { ArePieces-prop false (record_kind_at codec.now.nodes codec.now.slots) count body.now },
    ghost size: { (1 ≤ length body.now) × (length body.now ≤ longest_body) },
}

impl<'c, 'a> BlockView<'c, 'a> {
    /// The codec that the body was scanned under.
    #[inline]
    pub fn codec(&self) -> &'c Codec
        ensures { result.now ≡ self.now.codec.now }
    {
        self.codec
    }

    /// The body, 1 to 65,532 octets.
    #[inline]
    pub fn octets(&self) -> &'a [u8]
        ensures body { result.now ≡ self.now.body.now }
        ensures size { (1 ≤ length result.now) × (length result.now ≤ longest_body) }
    {
        self.body
    }

    /// The number of records.
    #[inline]
    pub fn count(&self) -> u32
        ensures { CountsRecords self.now.codec.now self.now.body.now result }
    {
        self.count
    }

    /// The records, one view for each, in order.
    #[inline]
    pub fn records(&self) -> Records<'c, 'a>
        ensures { SpellEach self.now.codec.now self.now.body.now (records_left result) }
    {
        Records {
            codec: self.codec,
            count: self.count,
            left: self.body,
        }
    }

    /// Whether the body is the canonical spelling of its records.
    #[inline]
    pub fn is_least(&self) -> bool
        ensures { IsLeast self.now.codec.now self.now.body.now result }
    {
        self.least
    }
}

/// The view of a body of 1 to 65,532 octets. Ok comes exactly where the body spells records, and Err exactly where it
/// fails: that is its first fault, by bits of the body from 0. Takes no memory.
///
/// The fault can be trusted, for each specification without flaw that the codec stands for. It is RunsOut exactly where more
/// octets, put after the body, can make it spell records. With any other cause, no bits that begin with those of the body
/// through the named one spell records; for BadExplicitLength that is said of the bits through the whole octet. And for
/// every cause, the bits before the named one begin some bits that spell records: none of them tells a fault.
pub fn scan<'c, 'a>(codec: &'c Codec, body: &'a [u8]) -> Result<BlockView<'c, 'a>, BodyFault>
    requires { (1 ≤ length body.now) × (length body.now ≤ longest_body) }
    ensures codec { IfOk result (λ view. view.codec.now ≡ codec.now) }
    ensures body { IfOk result (λ view. view.body.now ≡ body.now) }
    ensures spelled { IfOk result (λ view. SpellsSome codec.now body.now) }
    ensures fault { IfErr result (λ fault. FailsThere codec.now body.now fault) }
    ensures honest { IfErr result (λ fault. IsHonestThere codec.now body.now fault) }
{
    let mut notes = Notes::new();
    let mut at = 0;
    let mut count = 0;
    let rows = RecordRows::of(codec);
    while (at as usize) < body.len() {
        match walk_with(&rows, Start { body, at }, &mut notes) {
            Some(walked) => at = walked.end,
            None => return Err(notes.fault),
        }
        count += 1;
    }
    Ok(BlockView {
        codec,
        body,
        count,
        least: notes.least,
    })
}
