//! Texts of paths: the category in three digits and the names downwards, joined by `/`.
ghost use Rattle.std.specs.Prelude.{◌≡◌, ◌++◌, codes, decimal, IfOk, OnOk};
ghost use Rattle.std.specs.List.{AllByRecursion};
ghost use Rattle.ax_format.specs.Characters.{IsTextOctet};
ghost use Rattle.ax_format.specs.Paths.{at, three_digits};

use crate::digits::category_digits;
use crate::name::Name;
use crate::text::Text;
use std::alloc::{AllocError, Global};

/// Appends octets. A text of more than 2^32 - 1 octets is a want of memory.
fn push_all(text: &mut Text, octets: &[u8]) -> Result<(), AllocError>
    requires { AllByRecursion IsTextOctet octets.now }
    ensures { OnOk result (text.new ≡ text.old ++ octets.now) }
{
    for octet in octets {
        if text.count() == u32::MAX {
            return Err(AllocError);
        }
        text.push(*octet)?;
    }
    Ok(())
}

/// The path and one word more.
pub fn at_word(alloc: Global, path: &Text, word: &[u8]) -> Result<Text, AllocError>
    requires { AllByRecursion IsTextOctet word.now }
    ensures { IfOk result (λ made. made ≡ at path.now word.now) }
{
    let mut made = path.copy(alloc)?;
    push_all(&mut made, b"/")?;
    push_all(&mut made, word)?;
    Ok(made)
}

/// The path and one name more.
#[tactic(auto, using(crate::proofs::PathOctets::name_printable))]
pub fn at_name(alloc: Global, path: &Text, name: &Name) -> Result<Text, AllocError>
    ensures { IfOk result (λ made. made ≡ at path.now name.now) }
{
    at_word(alloc, path, name.octets())
}

/// The path of a part of an extended item, by its number from 0.
#[tactic(auto, using(crate::proofs::PathOctets::part_printable))]
pub fn at_part(alloc: Global, path: &Text, number: u32) -> Result<Text, AllocError>
    ensures { IfOk result (λ made. made ≡ at path.now (codes "part" ++ decimal number)) }
{
    let word = format!(in alloc; "part{number}")?;
    at_word(alloc, path, word.as_bytes())
}

/// The path of a category: its three digits.
#[tactic(auto, using(crate::proofs::PathOctets::digits_printable))]
pub fn of_category(alloc: Global, category: u8) -> Result<Text, AllocError>
    ensures { IfOk result (λ made. made ≡ three_digits category) }
{
    let mut made = Text::new(alloc);
    push_all(&mut made, &category_digits(category))?;
    Ok(made)
}
