//! Expansion files: read and checked.
ghost use Rattle.std.specs.Prelude.{◌≡◌, IfOk, IfErr};
ghost use Rattle.ax_expand.specs.Expansion.{expansion_tree, NoExpansionFlaw};
ghost use Rattle.ax_expand.specs.Files.{SpellsExpansion};
ghost use Rattle.ax_load.specs.FileAnswers.{IsAcceptedIn};
ghost use Rattle.ax_load.specs.FileStops.{ParseStops, JudgeStops, FileStops};
ghost use Rattle.ax_load.specs.Languages.{expansion_files};

use crate::fault::SpecFault;
use crate::files::{FileStop, LARGEST_FILE, lex};
use ax_check::CheckError;
use ax_expand::{AcceptedExpansion, Expansion, accept_expansion, read_expansion};
use ax_grammar::SyntaxError;
use ax_tokens::Tokens;
use std::alloc::Global;

/// The expansion that tokens spell.
fn parse(alloc: Global, found: &Tokens<'_>) -> Result<Expansion, FileStop>
    ensures ok { IfOk result (λ expansion. SpellsExpansion found.now (expansion_tree expansion)) }
    ensures err { IfErr result (λ stop. ParseStops expansion_files found.now stop) }
{
    match read_expansion(alloc, found) {
        Ok(expansion) => Ok(expansion),
        Err(SyntaxError::BadToken { token }) => Err(FileStop::Refused(SpecFault::BadToken {
            token,
        })),
        Err(SyntaxError::OutOfMemory) => Err(FileStop::OutOfMemory),
    }
}

/// The expansion, where it has no flaw.
#[tactic(auto, using(crate::proofs::ExpansionLemmas::judged))]
fn judge(alloc: Global, expansion: Expansion) -> Result<AcceptedExpansion, FileStop>
    ensures ok { IfOk result (λ accepted. (accepted ≡ expansion) × NoExpansionFlaw (expansion_tree expansion)) }
    ensures err { IfErr result (λ stop. JudgeStops expansion_files (expansion_tree expansion) stop) }
{
    match accept_expansion(alloc, expansion) {
        Ok(accepted) => Ok(accepted),
        Err(CheckError::Flawed { flaws }) => Err(FileStop::Refused(SpecFault::Flawed { flaws })),
        Err(CheckError::OutOfMemory) => Err(FileStop::OutOfMemory),
    }
}

/// The expansion of the file that these octets are: refused by its size, its first token at fault, its syntax, or its flaws, in
/// this order.
#[tactic(auto, using(crate::proofs::ExpansionLemmas::file_steps))]
pub fn read_expansion_file(alloc: Global, octets: &[u8]) -> Result<AcceptedExpansion, FileStop>
    ensures ok { IfOk result (λ accepted. IsAcceptedIn expansion_files octets.now (expansion_tree accepted)) }
    ensures err { IfErr result (λ stop. FileStops expansion_files octets.now stop) }
{
    if octets.len() > LARGEST_FILE as usize {
        return Err(FileStop::Refused(SpecFault::TooLarge));
    }
    let found = lex(alloc, octets)?;
    let expansion = parse(alloc, &found)?;
    judge(alloc, expansion)
}
