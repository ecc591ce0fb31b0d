//! Tokens, and why a text has none.

ghost use Rattle.std.specs.Prelude.{◌≡◌};
ghost use Rattle.ax_tokens.specs.declared.token.LexError.TheVariants.{OutOfMemory};

use std::alloc::AllocFailed;
use std::marker::Model;
use thiserror::Error;

/// What a token is.
#[derive(Clone, Copy, Debug, PartialEq, Eq)]
pub enum TokenKind {
    /// The longest run of octets 0x21 to 0x7E other than `"`, `{`, `}` and `#`.
    Word,
    /// A double quote, octets 0x20 to 0x7E other than the double quote, and a double quote.
    Str,
    /// `{`
    Open,
    /// `}`
    Close,
}

/// A token of a text.
#[derive(Clone, Copy, Debug)]
pub struct Token<'t> {
    pub kind: TokenKind,
    /// Its whole slice of the text, the quotes of a Str among it.
    pub text: &'t [u8],
    /// The place of its first octet in the text, from 0.
    pub from: u32,
    /// The place after its last octet.
    pub to: u32,
}

/// The tokens of a text in order, numbered from 0. A contract sees them as the list of plain tokens,
/// each with octets that are a token of its kind.
#[derive(Debug)]
pub struct Tokens<'t> {
    pub(crate) found: Vec<Token<'t>>,
}

impl Drop for Tokens<'_> {
    fn drop(self) {
        let Tokens { found: _found } = self;
    }
}

impl<'t> Model for Tokens<'t> {
    ghost use Rattle.std.specs.Prelude.{List, length, ◌<◌, ◌^◌, All};
    ghost use Rattle.ax_tokens.specs.PlainToken.{PlainToken, plain_tokens};
    ghost use Rattle.ax_tokens.specs.Lexing.{HasTokenText};

    ghost Value = { List PlainToken };

    ghost view = { λ t. plain_tokens t.found.items };

    ghost invariant = { λ t. (length t.found.items < 2 ^ 32) × All HasTokenText (plain_tokens t.found.items) };
}

impl<'t> Tokens<'t> {
    ghost use Rattle.std.specs.Prelude.{◌≡◌, ◌↔◌, ◌<◌, length, All, IsSome, IfSome, slice_get};
    ghost use Rattle.std.specs.Option.{option_map};
    ghost use Rattle.ax_tokens.specs.PlainToken.{plain_token};
    ghost use Rattle.ax_tokens.specs.Lexing.{HasTokenText};

    /// How many tokens there are.
    pub fn count(&self) -> u32
        ensures count { result ≡ length self.now }
        ensures texts { All HasTokenText self.now }
    {
        self.found.len() as u32
    }

    /// The token of that number, from 0. None comes exactly past the last.
    pub fn get(&self, index: u32) -> Option<&Token<'t>>
        ensures value { option_map (λ t. plain_token t.now) result ≡ slice_get self.now index }
        ensures within { IsSome result ↔ index < length self.now }
        ensures text { IfSome result (λ t. HasTokenText (plain_token t.now)) }
    {
        self.found.get(index as usize)
    }
}

/// Why a text has no tokens within a limit of depth: the first fault in the order of its octets.
#[derive(Debug, Drop, Error)]
pub enum LexError {
    /// The octet at that place, from 0, fits nowhere. Inside a Str that no quote ends, it is the
    /// first octet that may not stand there, or the length of the text where the text ends.
    #[error("octet {at} fits nowhere")]
    BadByte { at: u32 },
    /// The `{` that is the token of that number, from 0, is one level deeper than the limit.
    #[error("token {token} is nested too deep")]
    TooDeep { token: u32 },
    /// No memory was left for the list of the tokens.
    #[error("out of memory")]
    OutOfMemory,
}

impl<T: Drop> From<AllocFailed<T>> for LexError {
    ghost from_gives = { λ _ e. e ≡ OutOfMemory };

    fn from(_e: AllocFailed<T>) -> LexError {
        LexError::OutOfMemory
    }
}
