//! Octets as a text in quotes: two lower-case hexadecimal digits for each.
ghost use Rattle.std.specs.Prelude.{◌≡◌, ◌↔◌, ◌<◌, ◌≤◌, ◌∷◌, ◌++◌, [], ℕ, List, length, drop, IsTrue, IfOk, IfErr, OnOk, MatchOption};
ghost use Rattle.hex.specs.Hex.{encode_lower};
ghost use Rattle.ax_bits.specs.Bits.{AreOctets};
ghost use Rattle.ax_format.specs.Plain.{value_tree};
ghost use Rattle.ax_format.specs.Shape.{Shape};
ghost use Rattle.ax_format.specs.Tree.{explicit};
ghost use Rattle.ax_text_form.specs.ValueText.{hex_text};
ghost use Rattle.ax_tokens.specs.Octets.{quote};
ghost use Rattle.ax_tokens.specs.declared.stopped.Stopped.TheVariants.{Bad, OutOfMemory};
ghost use Rattle.ax_block_reader.specs.Continuing.{Gives};
ghost use Rattle.ax_block_reader.specs.Languages.{kind_texts, IsNoDigits, IsNoHexText, IsContent, HexAt};

use ax_format::{Octets, Value};
use ax_text_form::unquoted;
use ax_tokens::{Reader, Stopped};
use hex::FromHexError;
use std::alloc::{AllocError, Global};

// The most octets of a list. A text has fewer than 2^32 octets, so its digits never stand for as many.
const MOST: usize = 0x8000_0000;

/// Whether these are the digits of the octets.
fn are_digits_of(alloc: Global, digits: &[u8], octets: &[u8]) -> Result<bool, AllocError>
    ensures { IfOk result (λ same. IsTrue same ↔ (digits.now ≡ encode_lower octets.now)) }
{
    let made = hex::encode(alloc, octets)?;
    Ok(made.as_bytes() == digits)
}

/// A list of the octets.
fn listed(alloc: Global, octets: &[u8]) -> Result<Octets, AllocError>
    requires { length octets.now ≤ 2147483648 }
    ensures list { IfOk result (λ made. made ≡ octets.now) }
    ensures octets { AreOctets octets.now }
{
    let mut made = Octets::new(alloc);
    for octet in octets {
        made.push(*octet)?;
    }
    Ok(made)
}

/// The octets whose digits these are. None comes exactly where they are the digits of none.
#[tactic(auto, using(crate::proofs::Contents::decoded))]
fn octets_of(alloc: Global, digits: &[u8]) -> Result<Option<Octets>, AllocError>
    ensures { IfOk result (λ found. MatchOption found (IsNoDigits digits.now) (λ octets. AreOctets octets × (digits.now ≡ encode_lower octets))) }
{
    match hex::decode(alloc, digits) {
        Ok(octets) => {
            if !are_digits_of(alloc, digits, octets.as_slice())? {
                return Ok(None);
            }
            if octets.len() > MOST {
                return Err(AllocError);
            }
            let octets = listed(alloc, octets.as_slice())?;
            Ok(Some(octets))
        }
        Err(FromHexError::OutOfMemory) => Err(AllocError),
        Err(_) => Ok(None),
    }
}

/// The octets that the text stands for. None comes exactly where it stands for none.
#[tactic(auto, using(crate::proofs::Contents::in_quotes))]
fn hex_octets(alloc: Global, text: &[u8]) -> Result<Option<Octets>, AllocError>
    ensures { IfOk result (λ found. MatchOption found (IsNoHexText text.now) (λ octets. AreOctets octets × (text.now ≡ hex_text octets))) }
{
    match unquoted(text) {
        None => Ok(None),
        Some(digits) => {
            let found = octets_of(alloc, digits)?;
            Ok(found)
        }
    }
}

/// The octets of the next token, which isn't read yet.
#[tactic(auto, using(crate::proofs::Contents::peeking))]
fn next_octets(alloc: Global, reader: &Reader<'_, '_>) -> Result<Octets, Stopped>
    ensures { HexAt result reader.now }
{
    let token = reader.peek()?;
    match hex_octets(alloc, token.text)? {
        Some(octets) => Ok(octets),
        None => Err(Stopped::Bad),
    }
}

/// The content of an explicit item, at most 254 octets.
#[tactic(auto, using(crate::proofs::Contents::explicit_ways))]
pub(crate) fn explicit_value(alloc: Global, reader: &mut Reader<'_, '_>) -> Result<Value, Stopped>
    ensures gives { Gives value_tree (Shape explicit) (kind_texts explicit) result reader.old reader.new }
    ensures moves { OnOk result (length reader.new < length reader.old) }
{
    let octets = next_octets(alloc, reader)?;
    if octets.count() > 254 {
        return Err(Stopped::Bad);
    }
    reader.skip();
    Ok(Value::Octets(octets))
}

/// The content of an opaque block, at least one octet.
#[tactic(auto, using(crate::proofs::Contents::content_ways))]
pub(crate) fn opaque_content(alloc: Global, reader: &mut Reader<'_, '_>) -> Result<Octets, Stopped>
    ensures gives { Gives (λ octets. octets) IsContent (λ octets. hex_text octets ∷ []) result reader.old reader.new }
    ensures moves { OnOk result (length reader.new < length reader.old) }
{
    let octets = next_octets(alloc, reader)?;
    if octets.count() == 0 {
        return Err(Stopped::Bad);
    }
    reader.skip();
    Ok(octets)
}
