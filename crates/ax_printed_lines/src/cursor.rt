//! The place in a line.
ghost use Rattle.std.specs.Prelude.{◌≡◌, ◌+◌, ◌<◌, ◌≤◌, [], ◌∷◌, ◌++◌, false, length, decimal, IsTrue, IfSome, IfNone};
ghost use Rattle.ax_format.specs.Paths.{three_digits};
ghost use Rattle.ax_text_form.specs.ValueText.{opening, closing};
ghost use Rattle.ax_printed_lines.specs.Printed.{Place, AfterGap, IsAfterOctet, IsOneWord, Goes, GoesQuoted};
ghost use Rattle.ax_printed_lines.specs.Runs.{RunGoes};
ghost use Rattle.ax_text_lines.specs.Templates.{template_width, whole_template};

use crate::gaps::{after_gap, after_separators, after_spaced, after_word, split_word};
use crate::names::{FrontWord, after_short_name, after_spaced_name, are_same, begins_with};
use crate::numbers::{number_in_front, spaced_number};
use crate::runs::after_template;
use ax_format::Name;
use ax_text_form::{category_of, unquoted};
use ax_text_lines::TemplateSteps;
use std::marker::Model;

/// How deep the braces of a line may nest.
const DEEPEST: u32 = 20;

/// How deep the braces of a text nest that is read by its template, and one more.
const SHALLOW: u32 = 9;

/// The most octets of an explicit item as a text in quotes.
const MOST_QUOTED: usize = 510;

/// The place in a line, in front of a token or at the end. Contracts see the octets that are left and the level of the braces.
#[derive(Drop)]
pub struct Cursor<'t> {
    rest: &'t [u8],
    level: u32,
}

impl<'t> Model for Cursor<'t> {
    ghost use Rattle.std.specs.Prelude.{◌≤◌};
    ghost use Rattle.ax_printed_lines.specs.Printed.{Place};

    ghost Value = { Place };

    ghost view = { λ c. record { left = c.rest.now; level = c.level } };

    ghost invariant = { λ c. c.level ≤ 20 };
}

/// How many octets a text in quotes has, of which the first quote stands in front; or that many where they are more.
#[inline(always)]
fn quoted_count(octets: &[u8], most: usize) -> usize {
    let mut count = 1;
    while count < octets.len() && count < most {
        if octets[count] == b'"' {
            return count + 1;
        }
        count += 1;
    }
    count
}

impl<'t> Cursor<'t> {
    /// In front of a line's first token.
    pub fn new(line: &'t [u8]) -> Cursor<'t>
        ensures gap { AfterGap line.now result.left }
        ensures level { result.level ≡ 0 }
    {
        Cursor {
            rest: after_gap(line),
            level: 0,
        }
    }

    /// Whether the word comes. It is read if so.
    #[inline(always)]
    #[tactic(auto, using(crate::proofs::Going::words))]
    pub fn takes(&mut self, word: &[u8]) -> bool
        ensures taken { IsTrue result → IsOneWord word.now → Goes self.old self.new (word.now ∷ []) }
        ensures other { result ≡ false → self.new ≡ self.old }
    {
        let Some((front, later)) = split_word(self.rest, word.len()) else {
            return false;
        };
        if !are_same(front, word) {
            return false;
        }
        self.rest = later;
        true
    }

    /// The word that comes, by which the slot of its name is looked for.
    #[inline(always)]
    pub fn word(&self) -> FrontWord {
        FrontWord::of(self.rest)
    }

    /// Whether the name comes. It is read if so.
    #[inline(always)]
    #[tactic(auto, using(crate::proofs::Going::short_names))]
    pub fn takes_name(&mut self, name: &Name) -> bool
        ensures taken { IsTrue result → Goes self.old self.new (name.now ∷ []) }
        ensures moves { IsTrue result → length self.new.left < length self.old.left }
        ensures other { result ≡ false → self.new ≡ self.old }
    {
        if let Some(later) = after_short_name(self.rest, name) {
            self.rest = later;
            return true;
        }
        self.takes_any_name(name)
    }

    // The same, whatever stands behind the name.
    #[tactic(auto, using(crate::proofs::Going::names))]
    fn takes_any_name(&mut self, name: &Name) -> bool
        ensures taken { IsTrue result → Goes self.old self.new (name.now ∷ []) }
        ensures moves { IsTrue result → length self.new.left < length self.old.left }
        ensures other { result ≡ false → self.new ≡ self.old }
    {
        let count = name.octets().len();
        if self.rest.len() < count || !begins_with(self.rest, name) {
            return false;
        }
        let Some((_, later)) = split_word(self.rest, count) else {
            return false;
        };
        self.rest = later;
        true
    }

    /// What comes after that octet and the separators behind it, where it comes.
    #[inline(always)]
    #[tactic(auto, using(crate::proofs::Going::octets))]
    fn following(&self, octet: u8) -> Option<&'t [u8]>
        ensures { IfSome result (λ later. IsAfterOctet octet self.now.left later.now) }
    {
        if let Some(later) = after_spaced(self.rest, octet) {
            return Some(later);
        }
        match self.rest.split_first() {
            Some((first, following)) if *first == octet => Some(after_separators(following)),
            _ => None,
        }
    }

    /// Whether a brace comes that opens, no deeper than a line allows. It is read if so.
    #[inline(always)]
    #[tactic(auto, using(crate::proofs::Going::braces))]
    pub fn opens(&mut self) -> bool
        ensures opened { IsTrue result → Goes self.old self.new (opening ∷ []) }
        ensures moves { IsTrue result → length self.new.left < length self.old.left }
    {
        if self.level >= DEEPEST {
            return false;
        }
        let Some(later) = self.following(b'{') else {
            return false;
        };
        self.rest = later;
        self.level += 1;
        true
    }

    /// Whether a brace comes that closes. It is read if so.
    #[inline(always)]
    #[tactic(auto, using(crate::proofs::Going::braces))]
    pub fn closes(&mut self) -> bool
        ensures closed { IsTrue result → Goes self.old self.new (closing ∷ []) }
        ensures other { result ≡ false → self.new ≡ self.old }
    {
        let Some(later) = self.following(b'}') else {
            return false;
        };
        self.rest = later;
        self.level = self.level.saturating_sub(1);
        true
    }

    /// Whether a brace that closes is all that is left, with the separators behind it.
    pub fn ends(&self) -> bool
        ensures { IsTrue result → IsAfterOctet 125 self.now.left [] × (self.now.level ≤ 20) }
    {
        match self.rest.split_first() {
            Some((octet, following)) if *octet == b'}' => match after_gap(following) {
                [] => true,
                _ => false,
            },
            _ => false,
        }
    }

    /// The number of at most 19 digits behind that name of at most six octets, where both come with one space behind each, as mostly in
    /// groups. They are read if so.
    #[inline(always)]
    #[tactic(auto, using(crate::proofs::Going::named_numbers))]
    pub fn named_number(&mut self, name: &Name) -> Option<u64>
        ensures some { IfSome result (λ n. Goes self.old self.new (name.now ∷ decimal n ∷ [])) }
        ensures none { IfNone result (self.new ≡ self.old) }
    {
        let following = after_spaced_name(self.rest, name)?;
        let (number, later) = spaced_number(following)?;
        self.rest = later;
        Some(number)
    }

    /// The number of at most 19 digits that comes. It is read if there is one.
    #[inline(always)]
    #[tactic(auto, using(crate::proofs::Going::numbers))]
    pub fn number(&mut self) -> Option<u64>
        ensures { IfSome result (λ n. Goes self.old self.new (decimal n ∷ [])) }
    {
        if let Some(found) = spaced_number(self.rest) {
            self.rest = found.1;
            return Some(found.0);
        }
        self.any_number()
    }

    // The same, whatever stands behind the number, and of any number of digits.
    #[tactic(auto, using(crate::proofs::Going::numbers))]
    fn any_number(&mut self) -> Option<u64>
        ensures { IfSome result (λ n. Goes self.old self.new (decimal n ∷ [])) }
    {
        let (number, following) = number_in_front(self.rest)?;
        let later = after_word(following)?;
        self.rest = later;
        Some(number)
    }

    /// The numbers of a template, as one number of at most 56 bits, where what it prints comes with one space behind it. It is read
    /// if so. None comes too where its braces might open deeper than a line allows.
    #[inline(always)]
    #[tactic(auto, using(crate::proofs::TemplatesBuilt::template_read))]
    pub fn template(&mut self, steps: &TemplateSteps) -> Option<u64>
        requires { template_width (whole_template steps.now) ≤ 56 }
        ensures some { IfSome result (λ n. RunGoes (whole_template steps.now) n self.old self.new) }
        ensures none { IfNone result (self.new ≡ self.old) }
    {
        if self.level > DEEPEST - SHALLOW {
            return None;
        }
        let (bits, left) = after_template(self.rest, steps)?;
        self.rest = left;
        Some(bits)
    }

    /// The category that comes, in three digits. It is read if there is one.
    #[tactic(auto, using(crate::proofs::Going::categories))]
    pub fn category(&mut self) -> Option<u8>
        ensures octet { IfSome result (λ n. n < 256) }
        ensures goes { IfSome result (λ n. Goes self.old self.new (three_digits n ∷ [])) }
    {
        let (digits, later) = split_word(self.rest, 3)?;
        let category = category_of(digits)?;
        self.rest = later;
        Some(category)
    }

    /// What stands between the quotes of the text that comes. It is read if it is in quotes.
    #[tactic(auto, using(crate::proofs::Going::quotes))]
    pub fn quoted(&mut self) -> Option<&'t [u8]>
        ensures { IfSome result (λ digits. GoesQuoted digits.now self.old self.new) }
    {
        let (text, later) = split_word(self.rest, quoted_count(self.rest, MOST_QUOTED))?;
        let digits = unquoted(text)?;
        self.rest = later;
        Some(digits)
    }
}
