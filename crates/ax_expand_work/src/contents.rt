//! The lines of one content of RE.
ghost use Rattle.std.specs.Prelude.{◌≡◌, ◌≤◌, length, Some, OnOk};
ghost use Rattle.ax_expand.specs.Expansion.{expansion_tree};
ghost use Rattle.ax_expand_work.specs.Gathering.{GathersContent};

use crate::lines::{RecordNumber, SpelledContent, canonical, push_re, push_unread};
use ax_expand::{AcceptedExpansion, ContentError, decode_content};
use ax_octets::OctetBuffer;
use std::alloc::{AllocError, Global};

/// The lines of a block, before any of them is written: of contents that spell a value, and of contents that have a fault.
pub(crate) struct ContentLines {
    pub(crate) spelled: OctetBuffer,
    pub(crate) faulty: OctetBuffer,
}

impl Drop for ContentLines {
    fn drop(self) {
        let ContentLines {
            spelled: _spelled,
            faulty: _faulty,
        } = self;
    }
}

/// Gathers the line of a content of RE, of at most 254 octets.
#[tactic(auto, using(crate::proofs::Gathered::contents))]
pub(crate) fn gather_content(
    alloc: Global,
    expansion: &AcceptedExpansion,
    name: RecordNumber,
    content: &[u8],
    lines: &mut ContentLines,
) -> Result<(), AllocError>
    requires { length content.now ≤ 254 }
    ensures { OnOk result (GathersContent (expansion_tree expansion.now) name.block name.number (Some content.now) lines.old lines.new) }
{
    match decode_content(alloc, expansion, content) {
        Ok(value) => {
            let octets = canonical(alloc, expansion, &value)?;
            let spelled = SpelledContent { octets, value };
            push_re(alloc, &mut lines.spelled, expansion, name, spelled)
        }
        Err(ContentError::Fault { cause, bit }) => {
            push_unread(&mut lines.faulty, name, bit, cause)
        }
        Err(ContentError::OutOfMemory) => Err(AllocError),
    }
}
