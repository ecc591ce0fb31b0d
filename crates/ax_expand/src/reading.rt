//! From tokens to the expansion that they spell.

ghost use Rattle.std.specs.Prelude.{◌≡◌, ◌⊎◌, IfOk, IfErr, OnOk};
ghost use Rattle.ax_grammar.specs.Gives.{Gives};
ghost use Rattle.ax_grammar.specs.declared.error.SyntaxError.TheVariants.{OutOfMemory};
ghost use Rattle.ax_expand.specs.Answers.{ReadsExpansion};
ghost use Rattle.ax_expand.specs.Expansion.{ExpansionTree, expansion_tree};
ghost use Rattle.ax_expand.specs.Files.{SpellsExpansion, IsBadExpansion};
ghost use Rattle.ax_expand.specs.Rules.{form_at, expansion_at, whole_at};

use crate::expansion::Expansion;
use crate::form::Form;
use ax_grammar::{Keyword, SpecReader, SyntaxError};
use ax_tokens::{Stopped, Tokens};
use std::alloc::Global;

#[tactic(auto, unfolding(crate::specs::Rules::form_at))]
fn form(reader: &mut SpecReader<'_, '_>) -> Result<Form, Stopped>
    ensures { Gives (λ form. form) result reader.new (form_at reader.old) }
{
    match reader.keyword()? {
        Keyword::Fx => {
            reader.skip();
            Ok(Form::Fx)
        }
        Keyword::Fixed => {
            reader.skip();
            let octets = reader.number_within(1, 15)?;
            Ok(Form::Fixed(octets as u32))
        }
        _ => Err(Stopped::Bad),
    }
}

/// An expansion. Tokens may follow it.
#[tactic(auto, unfolding(crate::specs::Rules::expansion_at))]
fn expansion(alloc: Global, reader: &mut SpecReader<'_, '_>) -> Result<Expansion, Stopped>
    ensures { Gives expansion_tree result reader.new (expansion_at reader.old) }
{
    reader.expect(Keyword::Expansion)?;
    let category = reader.category()?;
    reader.expect(Keyword::Edition)?;
    let edition = reader.text(alloc)?;
    let form = form(reader)?;
    let slots = reader.slots(alloc)?;
    Ok(Expansion {
        category,
        edition,
        form,
        slots,
    })
}

/// All tokens that are left are an expansion.
#[tactic(auto, unfolding(crate::specs::Rules::whole_at))]
fn whole(alloc: Global, reader: &mut SpecReader<'_, '_>) -> Result<Expansion, Stopped>
    ensures { Gives expansion_tree result reader.new (whole_at reader.old) }
{
    let expansion = expansion(alloc, reader)?;
    reader.end()?;
    Ok(expansion)
}

/// The expansion that the tokens spell, which has one spelling.
///
/// A list of tokens spells at most one expansion. Where it spells none, `BadToken` names the token at which the reader
/// stops, or the count of the tokens where they end too early: a category that isn't three digits up to 255, a number of
/// presence octets that isn't 1 to 15 without leading zero, a word of another rule, a missing brace, or a token after the
/// end. The tokens before that one begin some spelling, and none begins with those and that one.
///
/// Each token is read once, from left to right, and the tree is all that takes memory. The calls nest as the tokens'
/// braces do: the depth that the tokens were made with bounds the stack.
pub fn read_expansion(alloc: Global, tokens: &Tokens<'_>) -> Result<Expansion, SyntaxError>
    // The tree is the one that the tokens spell.
    ensures spells { IfOk result (λ expansion. SpellsExpansion tokens.now (expansion_tree expansion)) }
    // A bad token is named where they spell none.
    ensures bad { IfErr result (λ error. IsBadExpansion tokens.now error) }

    // Each comes wherever it holds, unless memory runs out.
    ensures always_spells { (x : ExpansionTree) → SpellsExpansion tokens.now x → ReadsExpansion x result }
    ensures always_bad { ((x : ExpansionTree) → SpellsExpansion tokens.now x → ⊥) → OnOk result ⊥ }
{
    let mut reader = SpecReader::new(tokens);
    match whole(alloc, &mut reader) {
        Ok(expansion) => Ok(expansion),
        Err(Stopped::Bad) => Err(SyntaxError::BadToken {
            token: tokens.count() - reader.count(),
        }),
        Err(Stopped::OutOfMemory) => Err(SyntaxError::OutOfMemory),
    }
}
