//! The block reader.
ghost use Rattle.std.specs.Prelude.{◌≡◌, IfOk, length};
ghost use Rattle.ax_format.specs.Sizes.{longest_block};

use crate::framing::{next_length, raw_block};
use crate::next_error::NextError;
use ax_endpoints::Source;
use ax_format::RawBlock;
use ax_lists::zeros;
use std::alloc::{AllocError, Global};
use std::marker::Model;

/// How a reader has ended, which it answers from then on.
#[derive(Clone, Copy)]
pub enum EndedBlocks {
    EndOfInput,
    Refused(NextError),
}

/// A reader of data blocks, with room for the longest one.
pub struct BlockReader {
    buffer: Vec<u8>,
    limit: u64,
    given: u64,
    ended: Option<EndedBlocks>,
}

impl Drop for BlockReader {
    fn drop(self) {
        let BlockReader {
            buffer: _buffer,
            limit: _limit,
            given: _given,
            ended: _ended,
        } = self;
    }
}

impl Model for BlockReader {
    ghost use Rattle.std.specs.Prelude.{◌≡◌, ◌≤◌, length};
    ghost use Rattle.ax_blocks.specs.Reader.{ReaderState};
    ghost use Rattle.ax_format.specs.Sizes.{longest_block};

    ghost Value = { ReaderState };

    ghost view = { λ r. record { limit = r.limit; given = r.given; ended = r.ended } };

    ghost invariant = { λ r. (length r.buffer.items ≡ longest_block) × (r.given ≤ r.limit) };
}

impl BlockReader {
    ghost use Rattle.std.specs.Prelude.{◌≡◌, ◌+◌, ◌≤◌, ◌<◌, Some, None, IfOk, IfSome};
    ghost use Rattle.std.specs.Borrow.{sem};
    ghost use Rattle.std.specs.Io.BufRead.{Rests};
    ghost use Rattle.ax_blocks.specs.Reader.{IsAfter, IsOpen, ended_by, OnBlock, OnEnd, OnTooLong, OnReadFault, GivesNext, ShowsEnd, StopsInBlock};
    ghost use Rattle.ax_blocks.specs.Taking.{UnlessReadFault};
    ghost use Rattle.ax_endpoints.specs.Changes.{source_change};
    ghost use Rattle.ax_endpoints.specs.Told.{Rose};
    ghost use Rattle.ax_blocks.specs.contracts.reader.BlockReader.{the_row};

    /// A reader of an input of at most `limit` octets, which has taken nothing and keeps no answer. The room for the
    /// longest block, 65,535 octets, is taken here, once; want of memory for it is the one refusal.
    pub fn new(alloc: Global, limit: u64) -> Result<BlockReader, AllocError>
        ensures { IfOk result (λ reader. reader ≡ record { limit = limit; given = 0; ended = None }) }
    {
        let buffer = zeros(alloc, LONGEST)?;
        Ok(BlockReader {
            buffer,
            limit,
            given: 0,
            ended: None,
        })
    }

    /// The most octets that the input may have.
    pub fn limit(&self) -> u64
        ensures { result ≡ self.now.limit }
    {
        self.limit
    }

    /// The next block of the input, or None exactly where the input ends at a block's border. It takes no memory, and asks
    /// only for octets that the header, and then the block, still needs.
    ///
    /// - `InputTooLong` exactly where the header, or the block, contains the octet after the limit, and it is there; of a
    ///   source that doesn't tell its octets, only where the number of those taken passes the limit.
    /// - `EndsInHeader`, `BadLen` and `EndsInBlock` exactly where one or two octets are left, where LEN is below 4, and
    ///   where fewer octets than LEN are left.
    /// - `ReadFault` only where the source counted a fault in this call; some octets of a block were taken then. One fault
    ///   at most is counted, and none at another answer: after a read that failed the source isn't asked again.
    ///
    /// After None or a refusal it gives the same answer again, and takes nothing.
    pub fn next<'b, S: Source>(
        &'b mut self,
        source: &mut S,
    ) -> Result<Option<RawBlock<'b>>, NextError>
        ensures* after { sem 𝓛 (Rests the_row self.entry (λ new. IsAfter self.old result new)) }
        ensures again { IfSome self.old.ended (λ ended. (ended_by result ≡ Some ended) × (source.new ≡ source.old)) }
        ensures block { IsOpen self.old → OnBlock result (λ raw. GivesNext self.old (source_change S.Source source.old source.new) raw) }
        ensures end { IsOpen self.old → OnEnd result (λ end. ShowsEnd self.old (source_change S.Source source.old source.new) end) }
        ensures past_limit { IsOpen self.old → OnTooLong result (self.old.limit + S.taken source.old < self.old.given + S.taken source.new) }
        ensures fault { IsOpen self.old → OnReadFault result (StopsInBlock self.old (source_change S.Source source.old source.new)) }
        ensures rose { IsOpen self.old → OnReadFault result (Rose (S.faults source.old) (S.faults source.new)) }
        ensures never_falls { S.faults source.old ≤ S.faults source.new }
        ensures once { S.faults source.new ≤ S.faults source.old + 1 }
        ensures quiet { UnlessReadFault result (S.faults source.new ≡ S.faults source.old) }
    {
        match self.ended {
            Some(EndedBlocks::EndOfInput) => return Ok(None),
            Some(EndedBlocks::Refused(error)) => return Err(error),
            None => {}
        }
        match next_length(source, &mut self.buffer, self.limit, self.given) {
            Ok(Some(length)) => {
                self.given += length as u64;
                Ok(Some(raw_block(&self.buffer, length)))
            }
            Ok(None) => {
                self.ended = Some(EndedBlocks::EndOfInput);
                Ok(None)
            }
            Err(error) => {
                self.ended = Some(EndedBlocks::Refused(error));
                Err(error)
            }
        }
    }
}

/// The most octets of a block.
const LONGEST: usize = 65_535;
