//! Blocks as text.
ghost use Rattle.std.specs.Prelude.{◌≡◌, IfOk, OnOk};
ghost use Rattle.std.specs.List.{AllByRecursion};
ghost use Rattle.ax_format.specs.Blocks.{read_block};
ghost use Rattle.ax_format.specs.Bodies.{RecordShape};
ghost use Rattle.ax_format.specs.OfCode.{BlockFits};
ghost use Rattle.ax_format.specs.Paths.{three_digits};
ghost use Rattle.ax_format.specs.Plain.{spec_tree, record_tree, records_tree, block_tree};
ghost use Rattle.ax_text_form.specs.BlockText.{record_onto, records_onto, OpaqueLine, BlockLine};
ghost use Rattle.ax_text_form.specs.Printing.{after_spaces, Puts};
ghost use Rattle.ax_text_form.specs.ValueText.{one_onto, hex_text};

use ax_format::{Block, Record, Records, Spec, category_digits};
use ax_text_form::record_text;
use std::alloc::{AllocError, Global};

/// The line of a block that fits the specification: its tokens with one space between, and a line feed.
pub fn block_text(alloc: Global, spec: &Spec, block: &Block) -> Result<Vec<u8>, AllocError>
    requires { BlockFits spec.now block.now }
    ensures { IfOk result (λ line. line.items ≡ BlockLine (spec_tree spec.now) (block_tree block.now)) }
{
    match block {
        Block::Read { category, records } => read_text(alloc, spec, *category, records),
        Block::Opaque { category, octets } => opaque_text(alloc, *category, octets.as_slice()),
    }
}

fn read_text(
    alloc: Global,
    spec: &Spec,
    category: u8,
    records: &Records,
) -> Result<Vec<u8>, AllocError>
    requires { AllByRecursion (RecordShape (spec_tree spec.now)) (records_tree records.now) }
    ensures { IfOk result (λ line. line.items ≡ BlockLine (spec_tree spec.now) (read_block category (records_tree records.now))) }
{
    let mut line = Vec::from_slice(alloc, b"block")?;
    put_category(&mut line, category)?;
    put_text(&mut line, b"{")?;
    put_records(alloc, &mut line, spec, records)?;
    put_text(&mut line, b"}")?;
    line.push(b'\n')?;
    Ok(line)
}

/// The line of a block whose category has no specification: its category and its octets after LEN.
pub fn opaque_text(alloc: Global, category: u8, octets: &[u8]) -> Result<Vec<u8>, AllocError>
    ensures { IfOk result (λ line. line.items ≡ OpaqueLine category octets.now) }
{
    let mut line = Vec::from_slice(alloc, b"opaque")?;
    put_category(&mut line, category)?;
    put_hex(alloc, &mut line, octets)?;
    line.push(b'\n')?;
    Ok(line)
}

/// Puts the text of each record on a line.
#[tactic(auto, using(crate::proofs::RecordTexts::records_ways))]
fn put_records(
    alloc: Global,
    line: &mut Vec<u8>,
    spec: &Spec,
    records: &Records,
) -> Result<(), AllocError>
    requires { AllByRecursion (RecordShape (spec_tree spec.now)) (records_tree records.now) }
    ensures { OnOk result (Puts after_spaces (records_onto (spec_tree spec.now) (records_tree records.now)) line.old.items line.new.items) }
{
    for one in records.as_slice() {
        put_record(alloc, line, spec, one)?;
    }
    Ok(())
}

/// Puts the text of a record on a line, after a space.
#[tactic(auto, using(crate::proofs::RecordTexts::record_ways))]
fn put_record(
    alloc: Global,
    line: &mut Vec<u8>,
    spec: &Spec,
    one: &Record,
) -> Result<(), AllocError>
    requires { RecordShape (spec_tree spec.now) (record_tree one.now) }
    ensures { OnOk result (Puts after_spaces (record_onto (spec_tree spec.now) (record_tree one.now)) line.old.items line.new.items) }
{
    let text = record_text(alloc, spec, one)?;
    put_text(line, text.as_slice())?;
    Ok(())
}

/// Puts a text on a line, after a space.
#[tactic(auto, using(ax_text_form::proofs::Printed::text_put))]
fn put_text(line: &mut Vec<u8>, text: &[u8]) -> Result<(), AllocError>
    ensures { OnOk result (Puts after_spaces (one_onto text.now) line.old.items line.new.items) }
{
    line.push(b' ')?;
    line.extend_from_slice(text)?;
    Ok(())
}

/// Puts a category in three digits on a line, after a space.
fn put_category(line: &mut Vec<u8>, category: u8) -> Result<(), AllocError>
    ensures { OnOk result (Puts after_spaces (one_onto (three_digits category)) line.old.items line.new.items) }
{
    put_text(line, &category_digits(category))
}

/// Puts octets in hexadecimal digits, in quotes, on a line, after a space.
#[tactic(auto, using(ax_text_form::proofs::Printed::hex_put))]
fn put_hex(alloc: Global, line: &mut Vec<u8>, octets: &[u8]) -> Result<(), AllocError>
    ensures { OnOk result (Puts after_spaces (one_onto (hex_text octets.now)) line.old.items line.new.items) }
{
    line.extend_from_slice(b" \"")?;
    let digits = hex::encode(alloc, octets)?;
    line.extend_from_slice(digits.as_bytes())?;
    line.push(b'"')?;
    Ok(())
}
