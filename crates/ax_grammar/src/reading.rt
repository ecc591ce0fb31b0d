//! From tokens to the specification that they spell.

ghost use Rattle.std.specs.Prelude.{◌≡◌, ◌⊎◌, ℕ, length, IfOk, IfErr, MatchResult, OnOk};
ghost use Rattle.ax_format.specs.Plain.{spec_tree};
ghost use Rattle.ax_format.specs.Specification.{SpecTree};
ghost use Rattle.ax_grammar.specs.Answers.{SpellsSpec, IsBad, UnlessMemory, texts_of};
ghost use Rattle.ax_grammar.specs.Gives.{Gives};
ghost use Rattle.ax_grammar.specs.Rules.{whole_at};
ghost use Rattle.ax_grammar.specs.declared.error.SyntaxError.TheVariants.{OutOfMemory};

use crate::error::SyntaxError;
use crate::reader::SpecReader;
use ax_format::Spec;
use ax_tokens::{Stopped, Tokens};
use std::alloc::Global;

/// All tokens that are left are a specification.
#[tactic(auto, unfolding(crate::specs::Rules::whole_at))]
fn whole(alloc: Global, reader: &mut SpecReader<'_, '_>) -> Result<Spec, Stopped>
    ensures { Gives spec_tree result reader.new (whole_at reader.old) }
{
    let spec = reader.spec(alloc)?;
    reader.end()?;
    Ok(spec)
}

/// The specification that the tokens spell, which has one spelling.
///
/// A list of tokens spells at most one specification. Where it spells none, `BadToken` names the token at which
/// the reader stops, or the count of the tokens where they end too early: a category that isn't three digits up to 255, a
/// name or a number out of its form, a word of another rule, a missing brace, or a token after the end. The tokens
/// before that one begin some spelling, and none begins with those and that one.
///
/// Each token is read once, from left to right, and the tree is all that takes memory. The calls nest as the tokens'
/// braces do: the depth that the tokens were made with bounds the stack.
pub fn read_spec(alloc: Global, tokens: &Tokens<'_>) -> Result<Spec, SyntaxError>
    // The tree is the one that the tokens spell.
    ensures spells { IfOk result (λ spec. SpellsSpec tokens.now (spec_tree spec)) }
    // A bad token is named where they spell none.
    ensures bad { IfErr result (λ error. IsBad tokens.now error) }

    // Each comes wherever it holds, unless memory runs out.
    ensures always_spells { (spec : SpecTree) → SpellsSpec tokens.now spec → UnlessMemory result (λ found. spec_tree found ≡ spec) }
    ensures always_bad { ((spec : SpecTree) → SpellsSpec tokens.now spec → ⊥) → OnOk result ⊥ }
{
    let mut reader = SpecReader::new(tokens);
    match whole(alloc, &mut reader) {
        Ok(spec) => Ok(spec),
        Err(Stopped::Bad) => Err(SyntaxError::BadToken {
            token: tokens.count() - reader.count(),
        }),
        Err(Stopped::OutOfMemory) => Err(SyntaxError::OutOfMemory),
    }
}
