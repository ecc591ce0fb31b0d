//! From a text to its tokens.

ghost use Rattle.std.specs.Prelude.{◌≡◌, ℕ, ◌+◌, ◌^◌, ◌<◌, ◌≤◌, List, length, slice_index, slice_range, All, IfSome, IfNone, IfOk, IfErr};
ghost use Rattle.std.specs.List.{prefix_len};
ghost use Rattle.ax_tokens.specs.Octets.{quote, is_comment_octet, is_word_octet, is_string_octet};
ghost use Rattle.ax_tokens.specs.PlainToken.{PlainToken, plain_tokens};
ghost use Rattle.ax_tokens.specs.Depth.{level_after};
ghost use Rattle.ax_tokens.specs.Lexing.{AreTokensOf};
ghost use Rattle.ax_tokens.specs.Faults.{FitsNowhere, HasBadByte, IsTooDeep, IsFault, IsUnlessOutOfMemory};
ghost use Rattle.ax_tokens.specs.declared.token.TokenKind.TheVariants.{Str, Open};
ghost use Rattle.ax_tokens.specs.declared.token.LexError.TheVariants.{BadByte, TooDeep};
ghost use Rattle.ax_tokens.specs.Fronts.{BeginsNoGap, GapInFront, TokenInFront};

use crate::octets::{is_separator, is_string_octet, is_word_octet};
use crate::token::{LexError, Token, TokenKind, Tokens};
use std::alloc::Global;

/// How many octets after the first octet of a comment belong to it.
#[tactic(auto, unfolding(crate::specs::Octets::is_comment_octet))]
fn comment_length(octets: &[u8]) -> usize
    ensures longest { result ≡ prefix_len is_comment_octet octets.now }
    ensures inside { result ≤ length octets.now }
{
    octets.iter().take_while(|octet| **octet != b'\n').count()
}

/// How many octets of the longest gap are in front.
#[tactic(auto, using(crate::proofs::Gaps::gaps))]
fn gap_length(octets: &[u8]) -> usize
    ensures { GapInFront octets.now result }
{
    let mut length = 0;
    while length < octets.len() {
        let octet = octets[length];
        if is_separator(octet) {
            length += 1;
        } else if octet == b'#' {
            length += 1 + comment_length(&octets[length + 1..]);
        } else {
            break;
        }
    }
    length
}

/// How many octets of a Word are in front.
fn word_length(octets: &[u8]) -> usize
    ensures { result ≡ prefix_len is_word_octet octets.now }
{
    octets
        .iter()
        .take_while(|octet| is_word_octet(**octet))
        .count()
}

/// How many octets of a Str's content are in front.
fn content_length(octets: &[u8]) -> usize
    ensures longest { result ≡ prefix_len is_string_octet octets.now }
    ensures inside { result ≤ length octets.now }
{
    octets
        .iter()
        .take_while(|octet| is_string_octet(**octet))
        .count()
}

/// How many octets the Str in front has, or the place of what stops it.
#[tactic(auto, using(crate::proofs::Fronts::strs))]
fn str_length(octets: &[u8]) -> Result<usize, usize>
    requires some { 0 < length octets.now }
    requires quoted { slice_index octets.now 0 ≡ quote }
    ensures token { IfOk result (λ n. TokenInFront octets.now Str n) }
    ensures stops { IfErr result (λ place. FitsNowhere octets.now place) }
{
    let end = 1 + content_length(&octets[1..]);
    if end < octets.len() && octets[end] == b'"' {
        Ok(end + 1)
    } else {
        Err(end)
    }
}

/// The kind of the token in front and how many octets it has, or the place of the octet that fits nowhere.
#[tactic(auto, using(crate::proofs::Fronts::fronts))]
fn front_token(octets: &[u8]) -> Result<(TokenKind, usize), usize>
    requires some { 0 < length octets.now }
    requires no_gap { BeginsNoGap octets.now }
    ensures token { IfOk result (λ found. TokenInFront octets.now found.0 found.1) }
    ensures stops { IfErr result (λ place. FitsNowhere octets.now place) }
{
    match octets[0] {
        b'{' => Ok((TokenKind::Open, 1)),
        b'}' => Ok((TokenKind::Close, 1)),
        b'"' => {
            let length = str_length(octets)?;
            Ok((TokenKind::Str, length))
        }
        octet if is_word_octet(octet) => Ok((TokenKind::Word, word_length(octets))),
        _ => Err(0),
    }
}

/// The level after a token, or None for an Open past the depth.
fn next_level(level: u32, kind: TokenKind, depth: u32) -> Option<u32>
    requires { level ≤ depth }
    ensures some { IfSome result (λ next. (next ≡ level_after kind level) × (next ≤ depth)) }
    ensures none { IfNone result ((kind ≡ Open) × (level ≡ depth)) }
{
    match kind {
        TokenKind::Open if level == depth => None,
        TokenKind::Open => Some(level + 1),
        TokenKind::Close => Some(level.saturating_sub(1)),
        TokenKind::Word | TokenKind::Str => Some(level),
    }
}

/// The tokens of a text in order, or its first fault.
#[tactic(auto, using(crate::proofs::Steps::steps))]
fn token_list<'t>(alloc: Global, text: &'t [u8], depth: u32) -> Result<Vec<Token<'t>>, LexError>
    requires { length text.now ≤ 2 ^ 31 }
    ensures tokens { IfOk result (λ found. AreTokensOf text.now depth (plain_tokens found.items)) }
    ensures few { IfOk result (λ found. length found.items ≤ 2 ^ 31) }
    ensures fault { IfErr result (λ error. IsFault text.now depth error) }
{
    let mut found = Vec::new(alloc);
    let mut level = 0;
    let (_, mut rest) = text.split_at(gap_length(text));
    while !rest.is_empty() {
        let from = (text.len() - rest.len()) as u32;
        let (kind, length) = match front_token(rest) {
            Ok(token) => token,
            Err(offset) => return Err(LexError::BadByte {
                at: from + offset as u32,
            }),
        };
        level = match next_level(level, kind, depth) {
            Some(next) => next,
            None => return Err(LexError::TooDeep {
                token: found.len() as u32,
            }),
        };
        let (slice, after) = rest.split_at(length);
        let to = from + length as u32;
        found.push(Token {
            kind,
            text: slice,
            from,
            to,
        })?;
        let (_, next) = after.split_at(gap_length(after));
        rest = next;
    }
    Ok(found)
}

/// The tokens of a text of at most 2^31 octets, with at most `depth` braces one in another.
///
/// Space, tab, carriage return and line feed separate tokens, and so does a comment, from `#` up to
/// the next line feed or the end. The error is the first fault in the order of octets, or want of memory.
///
/// The octets are read from left to right, each of them a few times at most. Only the list of the
/// tokens takes memory: one vector, which grows as they are found. No octet is copied.
pub fn tokens<'t>(alloc: Global, text: &'t [u8], depth: u32) -> Result<Tokens<'t>, LexError>
    requires { length text.now ≤ 2 ^ 31 }

    // The tokens lex the text, and each has the slice of its span.
    ensures tokens { IfOk result (λ found. AreTokensOf text.now depth found) }
    ensures slices { IfOk result (λ found. All (λ t. t.text ≡ slice_range text.now t.from t.to) found) }
    // A fault is the first one of the text.
    ensures fault { IfErr result (λ error. IsFault text.now depth error) }

    // Each comes wherever it holds, unless memory runs out.
    ensures always_tokens { (found : List PlainToken) → AreTokensOf text.now depth found → IsUnlessOutOfMemory result (Ok found) }
    ensures always_bad_byte { (at : ℕ) → HasBadByte text.now depth at → IsUnlessOutOfMemory result (Err (BadByte at)) }
    ensures always_too_deep { (token : ℕ) → IsTooDeep text.now depth token → IsUnlessOutOfMemory result (Err (TooDeep token)) }
{
    let found = token_list(alloc, text, depth)?;
    Ok(Tokens { found })
}
