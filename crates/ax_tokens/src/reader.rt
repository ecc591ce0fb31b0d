//! The place in a list of tokens.
ghost use Rattle.std.specs.Prelude.{◌≡◌, ◌↔◌, ◌<◌, ◌≤◌, ◌^◌, IsTrue, length, drop, [], ◌∷◌, Ok, true, false, IfOk, IfErr, OnOk, MatchResult};
ghost use Rattle.ax_tokens.specs.PlainToken.{plain_token};
ghost use Rattle.ax_tokens.specs.Lexing.{HasTokenText};
ghost use Rattle.ax_tokens.specs.declared.stopped.Stopped.TheVariants.{Bad};
ghost use Rattle.ax_tokens.specs.Stopping.{Texts, Word, IsNotFirst, texts_of, Reads};

use crate::stopped::Stopped;
use crate::token::{Token, Tokens};
use std::marker::Model;

/// Reads tokens from left to right. Where one doesn't fit, it stays in front of it. Contracts see it as the texts
/// of the tokens that are left.
#[derive(Drop)]
pub struct Reader<'r, 't> {
    tokens: &'r Tokens<'t>,
    /// How many there are.
    end: u32,
    /// The number of the next token.
    at: u32,
}

impl<'r, 't> Model for Reader<'r, 't> {
    ghost use Rattle.std.specs.Prelude.{List, ℕ, length, drop, ◌≤◌, ◌<◌, ◌≡◌};
    ghost use Rattle.ax_tokens.specs.Stopping.{texts_of};

    ghost Value = { List (List ℕ) };

    ghost view = { λ r. drop r.at (texts_of r.tokens.now) };

    ghost invariant = { λ r. (r.at ≤ r.end) × (r.end ≡ length r.tokens.now) × (r.end < 4294967296) };
}

/// Whether the texts are the same. Words are short, so that octet by octet is quickest.
fn same_text(text: &[u8], word: &[u8]) -> bool
    ensures { IsTrue result ↔ (text.now ≡ word.now) }
{
    text.len() == word.len() && text.iter().zip(word).all(|(octet, wanted)| octet == wanted)
}

impl<'r, 't> Reader<'r, 't> {
    /// In front of the first token.
    pub fn new(tokens: &'r Tokens<'t>) -> Self
        ensures { result ≡ texts_of tokens.now }
    {
        Reader {
            tokens,
            end: tokens.count(),
            at: 0,
        }
    }

    /// In front of the token of that number, or at the end where there are fewer.
    pub fn from(tokens: &'r Tokens<'t>, at: u32) -> Self
        ensures { result ≡ drop at (texts_of tokens.now) }
    {
        let end = tokens.count();
        Reader {
            tokens,
            end,
            at: at.min(end),
        }
    }

    /// How many tokens are left.
    pub fn count(&self) -> u32
        ensures { result ≡ length self.now }
    {
        self.end - self.at
    }

    /// The next token.
    pub fn peek(&self) -> Result<&'r Token<'t>, Stopped>
        ensures next { IfOk result (λ t. self.now ≡ t.now.text.now ∷ drop 1 self.now) }
        ensures token { IfOk result (λ t. HasTokenText (plain_token t.now)) }
        ensures end { IfErr result (λ e. (e ≡ Bad) × (self.now ≡ [])) }
        ensures bound { OnOk result (length self.now < 2 ^ 32) }
    {
        match self.tokens.get(self.at) {
            Some(token) => Ok(token),
            None => Err(Stopped::Bad),
        }
    }

    /// Goes after the next token.
    pub fn skip(&mut self)
        requires { 0 < length self.old }
        ensures { self.new ≡ drop 1 self.old }
    {
        self.at += 1;
    }

    /// Reads the word.
    #[tactic(auto, using(crate::proofs::Words::expected))]
    pub fn expect(&mut self, word: &[u8]) -> Result<(), Stopped>
        ensures reads { Reads (λ _. word.now ∷ []) (Word word.now) result self.old self.new }
        ensures moves { OnOk result (length self.new < length self.old) }
        ensures bound { OnOk result (length self.old < 2 ^ 32) }
    {
        let token = self.peek()?;
        if !same_text(token.text, word) {
            return Err(Stopped::Bad);
        }
        self.skip();
        Ok(())
    }

    /// Whether the word comes. It is read if so.
    #[tactic(auto, using(crate::proofs::Words::taken))]
    pub fn takes(&mut self, word: &[u8]) -> Result<bool, Stopped>
        ensures taken { result ≡ Ok true → self.old ≡ word.now ∷ self.new }
        ensures other { result ≡ Ok false → (self.new ≡ self.old) × IsNotFirst (λ text. text ≡ word.now) self.old }
        ensures end { IfErr result (λ e. (e ≡ Bad) × (self.old ≡ []) × (self.new ≡ [])) }
    {
        let token = self.peek()?;
        let taken = same_text(token.text, word);
        if taken {
            self.skip();
        }
        Ok(taken)
    }
}
