//! Lines without comments, read straight to octets.
ghost use Rattle.std.specs.Prelude.{IfOk, IfSome};
ghost use Rattle.ax_build_work.specs.BuildCommand.{AnswersLine};
ghost use Rattle.ax_lines.specs.Commands.{gives};
ghost use Rattle.ax_format.specs.Plain.{catalogue_tree};

use crate::opaque::opaque_block;
use ax_printed_lines::{LaidBits, printed_body, whole_octets};
use ax_text_lines::PrintedUaps;
use std::alloc::{AllocError, Global};

/// The canonical octets of the block whose text the line is, where it is that of a block with a specification, has no comment, and is
/// short enough for the room that is lent. None says nothing of the line.
pub(crate) fn printed_octets(
    alloc: Global,
    tables: &PrintedUaps<'_>,
    line: &[u8],
    room: &mut [u8],
) -> Result<Option<Vec<u8>>, AllocError>
    ensures { IfOk result (λ made. IfSome made (λ octets. AnswersLine (catalogue_tree tables.now) line.now (gives octets.items))) }
{
    let mut out = LaidBits::over(room);
    let Some(category) = printed_body(tables, line, &mut out) else {
        return Ok(None);
    };
    let Some(body) = whole_octets(&out) else {
        return Ok(None);
    };
    let octets = opaque_block(alloc, category, body)?;
    Ok(Some(octets))
}
