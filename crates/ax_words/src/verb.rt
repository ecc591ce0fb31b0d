//! The verb that a word names.
ghost use Rattle.std.specs.Prelude.{◌≡◌, find};
ghost use Rattle.std.specs.Option.{option_copied};
ghost use Rattle.std.specs.Str.{bytes_eq};
ghost use Rattle.ax_words.specs.Verbs.{name_of, verb_named};

use crate::line::{VERBS, Verb};

/// Whether the word names the verb.
fn is_name_of(verb: Verb, word: &str) -> bool
    ensures { result ≡ bytes_eq (name_of verb) word.now }
{
    verb.name() == word
}

/// The first of the verbs that the word names.
fn first_named<'v>(verbs: &'v [Verb], word: &str) -> Option<&'v Verb>
    ensures { option_copied result ≡ find (λ verb. bytes_eq (name_of verb) word.now) verbs.now }
{
    verbs.iter().find(|verb| is_name_of(**verb, word))
}

/// The verb that the word names.
#[tactic(auto, unfolding(crate::specs::Verbs::verb_named))]
pub(crate) fn verb_named(word: &str) -> Option<Verb>
    ensures { result ≡ verb_named word.now }
{
    first_named(&VERBS, word).copied()
}
