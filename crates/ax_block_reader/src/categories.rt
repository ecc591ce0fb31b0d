//! Categories: as tokens, and which of them a catalogue has.
ghost use Rattle.std.specs.Prelude.{◌≡◌, ◌+◌, ◌<◌, ◌⊎◌, ℕ, ◌∷◌, [], drop, IfOk, IfErr, MatchOption, Some, None};
ghost use Rattle.ax_format.specs.Paths.{three_digits};
ghost use Rattle.ax_format.specs.Plain.{catalogue_tree};
ghost use Rattle.ax_format.specs.Specification.{spec_of};
ghost use Rattle.ax_tokens.specs.Stopping.{IsNotFirst};
ghost use Rattle.ax_tokens.specs.declared.stopped.Stopped.TheVariants.{Bad};
ghost use Rattle.ax_block_reader.specs.BlockForms.{HasCategory, IsCategoryText, LacksCategory};

use ax_format::Spec;
use ax_text_form::category_of;
use ax_tokens::{Reader, Stopped};
use ax_uap::CatalogueItems;

/// The category of the next token, which isn't read yet.
#[tactic(auto, using(crate::proofs::Digits::peeking))]
pub(crate) fn next_category(reader: &Reader<'_, '_>) -> Result<u8, Stopped>
    ensures category { IfOk result (λ n. (n < 256) × (reader.now ≡ three_digits n ∷ drop 1 reader.now)) }
    ensures none { IfErr result (λ e. (e ≡ Bad) × IsNotFirst IsCategoryText reader.now) }
{
    let token = reader.peek()?;
    match category_of(token.text) {
        Some(category) => Ok(category),
        None => Err(Stopped::Bad),
    }
}

/// The category of a specification, which is an octet.
fn category_in(spec: &Spec) -> u8
    ensures value { result ≡ spec.now.category }
    ensures octet { spec.now.category < 256 }
{
    spec.category
}

/// A category that the catalogue has. None comes exactly where it has none.
#[tactic(auto, using(crate::proofs::Digits::firsts))]
pub(crate) fn known_category(items: &CatalogueItems<'_>) -> Option<u8>
    ensures { MatchOption result (catalogue_tree items.now ≡ []) (HasCategory (catalogue_tree items.now)) }
{
    let first = items.first()?;
    Some(category_in(first))
}

/// A category that the catalogue lacks. None comes exactly where it has all 256.
pub(crate) fn lacked_category(items: &CatalogueItems<'_>) -> Option<u8>
    ensures { MatchOption result ((n : ℕ) → n < 256 → spec_of n (catalogue_tree items.now) ≡ None → ⊥) (LacksCategory (catalogue_tree items.now)) }
{
    for number in 0..256u16 {
        let category = number as u8;
        if items.get(category).is_none() {
            return Some(category);
        }
    }
    None
}
