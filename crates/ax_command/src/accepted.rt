//! The line for an accepted category file.
ghost use Rattle.std.specs.Prelude.{◌≡◌, IfOk};
ghost use Rattle.ax_format.specs.Plain.{spec_tree};
ghost use Rattle.ax_command.specs.Accepted.{accepted_line};

use ax_format::{Spec, category_digits};
use itoa::Buffer;
use std::alloc::{AllocError, Global};

/// The line for an accepted category file: its category, its edition, and the counts of its items and UAP slots.
pub fn line_of(alloc: Global, spec: &Spec) -> Result<Vec<u8>, AllocError>
    ensures { IfOk result (λ line. line.items ≡ accepted_line (spec_tree spec.now)) }
{
    let mut items = Buffer::new();
    let mut slots = Buffer::new();
    let mut line = Vec::from_slice(alloc, b"accepted ")?;
    line.extend_from_slice(&category_digits(spec.category))?;
    line.extend_from_slice(b" \"")?;
    line.extend_from_slice(spec.edition.as_slice())?;
    line.extend_from_slice(b"\" items ")?;
    line.extend_from_slice(items.format(spec.items.count()).as_bytes())?;
    line.extend_from_slice(b" slots ")?;
    line.extend_from_slice(slots.format(spec.uap.count()).as_bytes())?;
    line.extend_from_slice(b"\n")?;
    Ok(line)
}
