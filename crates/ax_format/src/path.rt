ghost use Rattle.std.specs.Prelude.{◌≡◌, ◌≤◌, ◌<◌, ◌+◌, ◌↔◌, ℕ, List, ◌∷◌, [], length, slice_get, IsSome, IfOk, MatchOption};
ghost use Rattle.std.specs.Option.{option_copied};
ghost use Rattle.ax_lists.specs.Sizes.{list_bound};
ghost use Rattle.ax_format.specs.Paths.{IsPathOf, pieces};

use crate::name::Name;
use ax_lists::Sequence;
use std::alloc::{AllocError, Global};
use std::marker::Model;

/// A path: one or more names, from an item downwards. The category is not among them. Contracts see it as the
/// list of its names.
pub struct Path {
    names: Sequence<Name>,
}

impl Drop for Path {
    fn drop(self) {
        let Path { names: _names } = self;
    }
}

impl Model for Path {
    ghost use Rattle.std.specs.Prelude.{List, ℕ, length, ◌<◌};

    ghost Value = { List (List ℕ) };

    ghost view = { λ p. p.names };

    ghost invariant = { λ p. 0 < length p.names };
}

/// What stands in front of the first `/`, and what stands after it, if there is one.
#[tactic(auto, using(crate::proofs::PathTexts::fronts))]
fn first_piece<'t>(text: &'t [u8]) -> (&'t [u8], Option<&'t [u8]>)
    ensures pieces { MatchOption result.1 (pieces text.now ≡ result.0.now ∷ []) (λ more. pieces text.now ≡ result.0.now ∷ pieces more.now) }
    ensures shorter { MatchOption result.1 (length result.0.now ≤ length text.now) (λ more. length result.0.now + length more.now < length text.now) }
{
    for at in 0..text.len() {
        if text[at] == b'/' {
            return (&text[..at], Some(&text[at + 1..]));
        }
    }
    (text, None)
}

impl Path {
    /// The path whose names, joined by `/`, are the text, which has at most 2^31 octets. None comes exactly
    /// where the text isn't one or more names joined by `/`.
    #[tactic(auto, using(crate::proofs::PathTexts::texts))]
    pub fn of(alloc: Global, text: &[u8]) -> Result<Option<Path>, AllocError>
        requires { length text.now ≤ 2147483648 }
        ensures { IfOk result (λ made. MatchOption made ((names : List (List ℕ)) → IsPathOf text.now names → ⊥) (λ path. IsPathOf text.now path)) }
    {
        let mut names: Sequence<Name> = Sequence::new(alloc);
        let mut rest = text;
        loop {
            let (front, following) = first_piece(rest);
            let Some(name) = Name::of(front) else {
                return Ok(None);
            };
            names.push(name)?;
            let Some(more) = following else {
                return Ok(Some(Path { names }));
            };
            rest = more;
        }
    }

    /// The number of names, at least 1.
    pub fn count(&self) -> u32
        ensures names { result ≡ length self.now }
        ensures some { 0 < result }
    {
        self.names.count()
    }

    /// The name at that place, from 0. None comes exactly past the end.
    pub fn get(&self, index: u32) -> Option<&Name>
        ensures value { option_copied result ≡ slice_get self.now index }
        ensures within { IsSome result ↔ index < length self.now }
    {
        self.names.get(index)
    }

    /// The names in order, at least one.
    pub fn as_slice(&self) -> &[Name]
        ensures names { result.now ≡ self.now }
        ensures some { 0 < length self.now }
        ensures bound { length self.now < list_bound }
    {
        self.names.as_slice()
    }

    /// A copy, which equals the original.
    pub fn copy(&self, alloc: Global) -> Result<Path, AllocError>
        ensures { IfOk result (λ made. made ≡ self.now) }
    {
        Ok(Path {
            names: self.names.copy(alloc)?,
        })
    }
}
