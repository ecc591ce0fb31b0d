//! The next block, taken into a buffer.
ghost use Rattle.std.specs.Prelude.{◌≡◌, ◌+◌, ◌≤◌, ◌<◌, length, take, IfOk, OnErr};
ghost use Rattle.ax_blocks.specs.Reader.{OnBlock, OnEnd, OnReadFault, FindsEnd, StopsUnfinished, HoldsBlock};
ghost use Rattle.ax_blocks.specs.Taking.{PartTells, OnPartFault, UnlessReadFault};
ghost use Rattle.ax_format.specs.Blocks.{IsFramed};
ghost use Rattle.ax_format.specs.Framing.{len_of};
ghost use Rattle.ax_format.specs.Sizes.{longest_block};
ghost use Rattle.ax_endpoints.specs.Changes.{source_change};
ghost use Rattle.ax_endpoints.specs.Told.{Rose};

use crate::next_error::NextError;
use ax_endpoints::{Source, fill};
use ax_format::RawBlock;

/// The octets of CAT and LEN.
const HEADER: usize = 3;

// Takes octets of the next block, after those buffered, up to those needed, and answers how many it holds then: fewer only
// where the input ends. Past `room` it takes one octet, which the part needs, and refuses.
fn take_part<S: Source>(
    source: &mut S,
    buffer: &mut [u8],
    buffered: usize,
    needed: usize,
    room: u64,
) -> Result<usize, NextError>
    requires buffered { buffered < needed }
    requires fits { needed ≤ length buffer.old }
    requires in_room { buffered ≤ room }
    ensures means { PartTells (source_change S.Source source.old source.new) buffer.old buffer.new buffered needed room result }
    ensures rose { OnPartFault result (Rose (S.faults source.old) (S.faults source.new)) }
    ensures never_falls { S.faults source.old ≤ S.faults source.new }
    ensures once { S.faults source.new ≤ S.faults source.old + 1 }
    ensures quiet { UnlessReadFault result (S.faults source.new ≡ S.faults source.old) }
{
    let wanted = if room < needed as u64 {
        room as usize + 1
    } else {
        needed
    };
    let Ok(count) = fill(source, &mut buffer[buffered..wanted]) else {
        return Err(NextError::ReadFault);
    };
    let buffered = buffered + count;
    if buffered as u64 > room {
        return Err(NextError::InputTooLong);
    }
    Ok(buffered)
}

/// Takes the next block of an input into the buffer, and answers its LEN; None where the input ends at a block's border.
///
/// `given` octets of whole blocks stand in front. The refusals are those of the reader.
pub fn next_length<S: Source>(
    source: &mut S,
    buffer: &mut [u8],
    limit: u64,
    given: u64,
) -> Result<Option<usize>, NextError>
    requires buffer { length buffer.old ≡ longest_block }
    requires within { given ≤ limit }
    ensures block { OnBlock result (HoldsBlock limit given (S.left source.old) (S.left source.new) (S.taken source.old) (S.taken source.new) buffer.new) }
    ensures end { OnEnd result (FindsEnd limit given (S.left source.old) (S.left source.new) (S.taken source.old) (S.taken source.new)) }
    ensures fault { OnReadFault result (StopsUnfinished limit given (S.left source.old) (S.left source.new) (S.taken source.old) (S.taken source.new)) }
    ensures rose { OnReadFault result (Rose (S.faults source.old) (S.faults source.new)) }
    ensures never_falls { S.faults source.old ≤ S.faults source.new }
    ensures once { S.faults source.new ≤ S.faults source.old + 1 }
    ensures quiet { UnlessReadFault result (S.faults source.new ≡ S.faults source.old) }
{
    let room = limit - given;
    let buffered = take_part(source, buffer, 0, HEADER, room)?;
    if buffered == 0 {
        return Ok(None);
    }
    if buffered < HEADER {
        return Err(NextError::EndsInHeader {
            bit: 8 * buffered as u32,
        });
    }
    let length = u16::from_be_bytes([buffer[1], buffer[2]]) as usize;
    if length < 4 {
        return Err(NextError::BadLen);
    }
    let buffered = take_part(source, buffer, HEADER, length, room)?;
    if buffered < length {
        return Err(NextError::EndsInBlock {
            bit: 8 * buffered as u32,
        });
    }
    Ok(Some(length))
}

/// The block that the first `len` octets are.
pub fn raw_block(octets: &[u8], len: usize) -> RawBlock<'_>
    requires least { 4 ≤ len }
    requires most { len ≤ length octets.now }
    requires longest { len ≤ longest_block }
    requires counted { len_of (take len octets.now) ≡ len }
    ensures framed { IsFramed result.category result.body.now (take len octets.now) }
    ensures count { length result.body.now + 3 ≡ len }
{
    RawBlock {
        category: octets[0],
        body: &octets[HEADER..len],
    }
}
