//! From a specification to its text.

ghost use Rattle.std.specs.Prelude.{◌≡◌, IfOk};
ghost use Rattle.ax_format.specs.Plain.{spec_tree};
ghost use Rattle.ax_grammar.specs.InRange.{AreNumbersInRange};
ghost use Rattle.ax_grammar.specs.Spelling.{printed};

use crate::keyword::Keyword;
use crate::printer::Printer;
use ax_format::Spec;
use std::alloc::{AllocError, Global};

/// The text of a specification: the tokens that spell it, with one space between, and a line feed after.
///
/// Widths have at most nine digits, and numbers of scales and tables at most 18, so that the text spells the
/// specification when it is read again. The text is all that takes memory.
pub fn print_spec(alloc: Global, spec: &Spec) -> Result<Vec<u8>, AllocError>
    requires { AreNumbersInRange (spec_tree spec.now) }
    ensures { IfOk result (λ text. text.items ≡ printed (spec_tree spec.now)) }
{
    let mut printer = Printer {
        out: Vec::new(alloc),
        failed: false,
    };
    printer.add(Keyword::Category.text());
    printer.spec(spec);
    printer.add(b"\n");
    let Printer { out, failed } = printer;
    if failed {
        return Err(AllocError);
    }
    Ok(out)
}
