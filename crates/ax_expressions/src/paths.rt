//! Paths with their category.
ghost use Rattle.std.specs.Prelude.{◌≡◌, ◌+◌, ◌<◌, ◌⊎◌, ℕ, ◌∷◌, [], IfOk, MatchOption};
ghost use Rattle.ax_format.specs.Paths.{three_digits};
ghost use Rattle.ax_expressions.specs.Words.{IsPath, path_word, IsPathText};

use crate::expr::FullPath;
use ax_format::{Path, category_of_digits};
use std::alloc::{AllocError, Global};

// The octets of the longest text that names are read from.
const LONGEST: usize = 0x8000_0000;

/// The path that the text is: a category of three digits, `/`, and one or more names joined by `/`. None comes exactly
/// where it is none. A text of more than 2^31 octets is a want of memory.
#[tactic(auto, using(crate::proofs::FullPaths::paths))]
pub fn path_of(alloc: Global, text: &[u8]) -> Result<Option<FullPath>, AllocError>
    ensures { IfOk result (λ found. MatchOption found (IsPathText text.now → ⊥) (λ path. IsPath path × (text.now ≡ path_word path))) }
{
    if text.len() > LONGEST {
        return Err(AllocError);
    }
    let [hundreds, tens, ones, b'/', ..] = text else {
        return Ok(None);
    };
    let Some(category) = category_of_digits(*hundreds, *tens, *ones) else {
        return Ok(None);
    };
    let Some(names) = Path::of(alloc, &text[4..])? else {
        return Ok(None);
    };
    Ok(Some(FullPath { category, names }))
}
