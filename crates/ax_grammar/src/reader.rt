//! The place in a list of tokens, and single tokens.

ghost use Rattle.std.specs.Prelude.{◌≡◌, ◌<◌, ◌≤◌, ◌^◌, length, drop, [], ◌∷◌, Ok, true, IfOk, IfErr, OnOk};
ghost use Rattle.std.specs.List.{AllByRecursion};
ghost use Rattle.ax_format.specs.Characters.{IsTextOctet};
ghost use Rattle.ax_tokens.specs.PlainToken.{plain_token};
ghost use Rattle.ax_tokens.specs.Lexing.{HasTokenText};
ghost use Rattle.ax_tokens.specs.declared.stopped.Stopped.TheVariants.{Bad};
ghost use Rattle.ax_grammar.specs.Answers.{texts_of};
ghost use Rattle.ax_grammar.specs.Gives.{Gives, Stops};
ghost use Rattle.ax_grammar.specs.Parsing.{expect_at, takes_at, one_at, end_at};
ghost use Rattle.ax_grammar.specs.Tests.{number_within};
ghost use Rattle.ax_grammar.specs.Rules.{keyword_at, name_at, category_at, width_at, number_at, text_at};

use crate::keyword::Keyword;
use crate::octets;
use ax_format::{Name, Text};
use ax_tokens::{Stopped, Token, Tokens};
use std::alloc::{AllocError, Global};
use std::marker::Model;

/// Reads tokens from left to right. Where one doesn't fit, it stays in front of it. Contracts see it as the texts
/// of the tokens that are left.
#[derive(Drop)]
pub struct SpecReader<'r, 't> {
    inside: ax_tokens::Reader<'r, 't>,
}

impl<'r, 't> Model for SpecReader<'r, 't> {
    ghost use Rattle.std.specs.Prelude.{List, ℕ};

    ghost Value = { List (List ℕ) };

    ghost view = { λ r. r.inside };
}

/// A text of these octets.
fn text_of(alloc: Global, octets: &[u8]) -> Result<Text, AllocError>
    requires short { length octets.now < 2 ^ 32 }
    requires printable { AllByRecursion IsTextOctet octets.now }
    ensures { IfOk result (λ text. text ≡ octets.now) }
{
    let mut text = Text::new(alloc);
    for octet in octets {
        text.push(*octet)?;
    }
    Ok(text)
}

impl<'r, 't> SpecReader<'r, 't> {
    /// In front of the first token.
    pub fn new(tokens: &'r Tokens<'t>) -> Self
        ensures { result ≡ texts_of tokens.now }
    {
        SpecReader {
            inside: ax_tokens::Reader::new(tokens),
        }
    }

    /// In front of the token of that number, or at the end where there are fewer.
    pub fn from(tokens: &'r Tokens<'t>, at: u32) -> Self
        ensures { result ≡ drop at (texts_of tokens.now) }
    {
        SpecReader {
            inside: ax_tokens::Reader::from(tokens, at),
        }
    }

    /// How many tokens are left.
    pub fn count(&self) -> u32
        ensures { result ≡ length self.now }
    {
        self.inside.count()
    }

    /// The next token.
    fn peek(&self) -> Result<&'r Token<'t>, Stopped>
        ensures next { IfOk result (λ t. self.now ≡ t.now.text.now ∷ drop 1 self.now) }
        ensures token { IfOk result (λ t. HasTokenText (plain_token t.now)) }
        ensures end { IfErr result (λ e. (e ≡ Bad) × (self.now ≡ [])) }
        ensures bound { OnOk result (length self.now < 2 ^ 32) }
    {
        self.inside.peek()
    }

    /// Goes after the next token.
    pub fn skip(&mut self)
        requires { 0 < length self.old }
        ensures { self.new ≡ drop 1 self.old }
    {
        self.inside.skip();
    }

    /// Reads the keyword.
    pub fn expect(&mut self, word: Keyword) -> Result<(), Stopped>
        ensures reads { Gives (λ _. tt) result self.new (expect_at word self.old) }
        ensures moves { OnOk result (length self.new < length self.old) }
        ensures bound { OnOk result (length self.old < 2 ^ 32) }
    {
        let token = self.peek()?;
        if !word.is(token.text) {
            return Err(Stopped::Bad);
        }
        self.skip();
        Ok(())
    }

    /// Whether the keyword comes. It is read if so.
    pub fn takes(&mut self, word: Keyword) -> Result<bool, Stopped>
        ensures reads { Gives (λ taken. taken) result self.new (takes_at word self.old) }
        ensures moves { OnOk result (length self.new ≤ length self.old) }
        ensures taken { result ≡ Ok true → length self.new < length self.old }
        ensures bound { OnOk result (length self.old < 2 ^ 32) }
    {
        let token = self.peek()?;
        let taken = word.is(token.text);
        if taken {
            self.skip();
        }
        Ok(taken)
    }

    /// The keyword that comes. It isn't read yet.
    pub fn keyword(&self) -> Result<Keyword, Stopped>
        ensures reads { IfOk result (λ word. keyword_at self.now ≡ Ok (word, drop 1 self.now)) }
        ensures some { OnOk result (0 < length self.now) }
        ensures stops { IfErr result (λ stopped. Stops stopped self.now (keyword_at self.now)) }
    {
        let token = self.peek()?;
        match Keyword::of(token.text) {
            Some(word) => Ok(word),
            None => Err(Stopped::Bad),
        }
    }

    /// Reads a name.
    pub fn name(&mut self) -> Result<Name, Stopped>
        ensures reads { Gives (λ name. name) result self.new (name_at self.old) }
        ensures moves { OnOk result (length self.new < length self.old) }
    {
        let token = self.peek()?;
        let Some(name) = octets::name(token.text) else {
            return Err(Stopped::Bad);
        };
        self.skip();
        Ok(name)
    }

    /// Reads a category.
    pub fn category(&mut self) -> Result<u8, Stopped>
        ensures { Gives (λ category. category) result self.new (category_at self.old) }
    {
        let token = self.peek()?;
        let Some(category) = octets::category(token.text) else {
            return Err(Stopped::Bad);
        };
        self.skip();
        Ok(category)
    }

    /// Reads a width.
    pub fn width(&mut self) -> Result<u32, Stopped>
        ensures { Gives (λ width. width) result self.new (width_at self.old) }
    {
        let token = self.peek()?;
        let Some(width) = octets::width(token.text) else {
            return Err(Stopped::Bad);
        };
        self.skip();
        Ok(width)
    }

    /// Reads a number of a scale or of a table.
    pub fn number(&mut self) -> Result<u64, Stopped>
        ensures { Gives (λ number. number) result self.new (number_at self.old) }
    {
        let token = self.peek()?;
        let Some(number) = octets::number(token.text, 18) else {
            return Err(Stopped::Bad);
        };
        self.skip();
        Ok(number)
    }

    /// Reads a number from `least` to `most`.
    pub fn number_within(&mut self, least: u64, most: u64) -> Result<u64, Stopped>
        ensures reads { Gives (λ number. number) result self.new (one_at (number_within least most) self.old) }
        ensures bounds { IfOk result (λ number. (least ≤ number) × (number ≤ most)) }
    {
        let token = self.peek()?;
        let Some(number) = octets::number_within(token.text, least, most) else {
            return Err(Stopped::Bad);
        };
        self.skip();
        Ok(number)
    }

    /// Reads a text in quotes.
    pub fn text(&mut self, alloc: Global) -> Result<Text, Stopped>
        ensures { Gives (λ text. text) result self.new (text_at self.old) }
    {
        let token = self.peek()?;
        let Some(content) = octets::content(token) else {
            return Err(Stopped::Bad);
        };
        let text = text_of(alloc, content)?;
        self.skip();
        Ok(text)
    }

    /// That no token is left.
    pub fn end(&self) -> Result<(), Stopped>
        ensures { Gives (λ _. tt) result self.now (end_at self.now) }
    {
        if self.count() > 0 {
            return Err(Stopped::Bad);
        }
        Ok(())
    }
}
