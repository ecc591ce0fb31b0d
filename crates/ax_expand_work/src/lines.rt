//! The lines of contents of RE, gathered for a block.
ghost use Rattle.std.specs.Prelude.{◌≡◌, ◌≤◌, ◌++◌, codes, OnOk, IfOk};
ghost use Rattle.ax_bits.specs.Bits.{bits};
ghost use Rattle.ax_expand.specs.Content.{CanonContent};
ghost use Rattle.ax_expand.specs.Expansion.{expansion_tree, wrapped_tree};
ghost use Rattle.ax_expand.specs.Lengths.{content_length};
ghost use Rattle.ax_expand_work.specs.Lines.{cause_name, re_line, re_record, unread_line};
ghost use Rattle.ax_format.specs.CanonicalOctets.{octets_of};
ghost use Rattle.ax_format.specs.Plain.{slots_tree, value_tree};
ghost use Rattle.ax_format.specs.Shape.{Shape};
ghost use Rattle.ax_format.specs.Tree.{compound};
ghost use Rattle.ax_report.specs.Lines.{numbered};
ghost use Rattle.ax_text_form.specs.BlockText.{RecordLine};
ghost use Rattle.ax_text_form.specs.ValueText.{hex_text};

use ax_expand::{AcceptedExpansion, ContentCause, encode_content};
use ax_format::{Entries, Entry, Record, Value};
use ax_octets::OctetBuffer;
use ax_text_form::record_text;
use ax_values::EncodeError;
use std::alloc::{AllocError, Global};

/// A record, by the number of its block in the stream, from 0, and by its own in the block, from 0.
#[derive(Clone, Copy)]
pub(crate) struct RecordNumber {
    pub(crate) block: u64,
    pub(crate) number: u32,
}

/// The name of a cause.
fn cause_text(cause: ContentCause) -> &'static [u8]
    ensures { result.now ≡ cause_name cause }
{
    match cause {
        ContentCause::RunsOut => b"RunsOut",
        ContentCause::UndefinedSlot => b"UndefinedSlot",
        ContentCause::PresenceTooLong => b"PresenceTooLong",
        ContentCause::ExtensionPastEnd => b"ExtensionPastEnd",
        ContentCause::BadExplicitLength => b"BadExplicitLength",
        ContentCause::TrailingOctets => b"TrailingOctets",
    }
}

/// Appends a text and a number after it.
#[tactic(auto, using(crate::proofs::Appended::appending))]
fn push_numbered(lines: &mut OctetBuffer, front: &[u8], number: u64) -> Result<(), AllocError>
    ensures { OnOk result (lines.new.octets ≡ lines.old.octets ++ numbered front.now number) }
{
    lines.text(front)?;
    lines.decimal(number)
}

/// Appends a space, the name of a cause and the end of its line.
fn push_cause(lines: &mut OctetBuffer, cause: ContentCause) -> Result<(), AllocError>
    ensures { OnOk result (lines.new.octets ≡ lines.old.octets ++ (codes " " ++ (cause_name cause ++ codes "\n"))) }
{
    lines.text3(b" ", cause_text(cause), b"\n")
}

/// Appends the line `unread block N record M bit K CAUSE`.
#[tactic(auto, using(crate::proofs::Appended::appending))]
pub(crate) fn push_unread(
    lines: &mut OctetBuffer,
    name: RecordNumber,
    bit: u32,
    cause: ContentCause,
) -> Result<(), AllocError>
    ensures { OnOk result (lines.new.octets ≡ lines.old.octets ++ unread_line name.block name.number bit cause) }
{
    push_numbered(lines, b"unread block ", name.block)?;
    push_numbered(lines, b" record ", name.number as u64)?;
    push_numbered(lines, b" bit ", bit as u64)?;
    push_cause(lines, cause)?;
    Ok(())
}

/// The canonical content of a value whose canonical content has at most 254 octets.
pub(crate) fn canonical(
    alloc: Global,
    expansion: &AcceptedExpansion,
    value: &Value,
) -> Result<Vec<u8>, AllocError>
    requires shape { Shape (compound (slots_tree expansion.now.slots)) (value_tree value.now) }
    requires short { content_length expansion.now.form (slots_tree expansion.now.slots) (value_tree value.now) ≤ 254 }
    ensures { IfOk result (λ octets. bits octets.items ≡ CanonContent expansion.now.form (slots_tree expansion.now.slots) (value_tree value.now)) }
{
    match encode_content(alloc, expansion, value) {
        Ok(octets) => Ok(octets),
        Err(EncodeError::TooLong { .. }) => unreachable!(),
        Err(EncodeError::OutOfMemory) => Err(AllocError),
    }
}

/// The text of the record whose one item, RE, has that value.
fn text_of(
    alloc: Global,
    expansion: &AcceptedExpansion,
    value: Value,
) -> Result<Vec<u8>, AllocError>
    requires { Shape (compound (slots_tree expansion.now.slots)) (value_tree value) }
    ensures { IfOk result (λ text. text.items ≡ RecordLine (wrapped_tree expansion.now) (re_record (value_tree value))) }
{
    let mut entries = Entries::new(alloc);
    entries.push(Entry { slot: 1, value })?;
    record_text(alloc, expansion.wrapped(), &Record { entries })
}

/// Appends octets in hexadecimal digits, in quotes.
#[tactic(auto, using(crate::proofs::Appended::appending))]
fn push_hex(alloc: Global, lines: &mut OctetBuffer, octets: &[u8]) -> Result<(), AllocError>
    ensures { OnOk result (lines.new.octets ≡ lines.old.octets ++ hex_text (octets_of (bits octets.now))) }
{
    let digits = hex::encode(alloc, octets)?;
    lines.text3(b"\"", digits.as_bytes(), b"\"")?;
    Ok(())
}

/// A value of RE, and the octets of its canonical content.
#[derive(Drop)]
pub(crate) struct SpelledContent {
    pub(crate) octets: Vec<u8>,
    pub(crate) value: Value,
}

/// Appends the line `re block N record M "HEX" TEXT` of a value with its canonical content.
#[tactic(auto, using(crate::proofs::Appended::appending))]
pub(crate) fn push_re(
    alloc: Global,
    lines: &mut OctetBuffer,
    expansion: &AcceptedExpansion,
    name: RecordNumber,
    content: SpelledContent,
) -> Result<(), AllocError>
    requires shape { Shape (compound (slots_tree expansion.now.slots)) (value_tree content.value) }
    requires canonical { bits content.octets.items ≡ CanonContent expansion.now.form (slots_tree expansion.now.slots) (value_tree content.value) }
    ensures { OnOk result (lines.new.octets ≡ lines.old.octets ++ re_line (expansion_tree expansion.now) name.block name.number (value_tree content.value)) }
{
    let text = text_of(alloc, expansion, content.value)?;
    push_numbered(lines, b"re block ", name.block)?;
    push_numbered(lines, b" record ", name.number as u64)?;
    lines.text(b" ")?;
    push_hex(alloc, lines, &content.octets)?;
    lines.text3(b" ", &text, b"\n")?;
    Ok(())
}
