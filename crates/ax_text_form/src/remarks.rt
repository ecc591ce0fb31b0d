//! What numbers mean, after them.
ghost use Rattle.std.specs.Prelude.{◌≡◌, ◌++◌, ◌*◌, ◌<◌, ◌≤◌, ◌^◌, ◌==◌, ◌∷◌, [], find, codes, OnOk, IfSome};
ghost use Rattle.std.specs.Option.{option_copied};
ghost use Rattle.ax_format.specs.InBounds.{IsWidth};
ghost use Rattle.ax_tokens.specs.Octets.{line_feed};
ghost use Rattle.ax_text_form.specs.Listable.{ContentListable};
ghost use Rattle.ax_text_form.specs.Remarks.{quoted, characters, reduced_text, entry_remark, remark, scaled_text};
ghost use Rattle.ax_format.specs.declared.content.Content.TheVariants.{Quantity};

use crate::characters::Alphabet;
use crate::fractions::{common_divisor, quotient, shared_twos};
use crate::lister::Lister;
use ax_bits::signed_of;
use ax_format::{Content, Scale, Sign, TableText, TableTexts};
use std::alloc::AllocError;

/// The first entry of that number. None comes exactly where there is none.
fn entry_of(entries: &TableTexts, number: u128) -> Option<&TableText>
    ensures { option_copied result ≡ find (λ entry. entry.number == number) entries.now }
{
    entries
        .as_slice()
        .iter()
        .find(|entry| u128::from(entry.number) == number)
}

/// The first entry of that number, of at most 64 bits. Most are among the first two, of which one is chosen without a branch.
#[inline(always)]
fn entry_with(entries: &TableTexts, number: u64) -> Option<&TableText>
    ensures { option_copied result ≡ find (λ entry. entry.number == number) entries.now }
{
    let all = entries.as_slice();
    if all.len() >= 2 {
        let place = (all[0].number != number) as usize;
        if all[place].number == number {
            return Some(&all[place]);
        }
    }
    entry_of(entries, u128::from(number))
}

impl Lister {
    /// The remark of an element whose number has at most 64 bits, and the end of its line.
    #[inline(always)]
    #[tactic(auto, using(crate::proofs::RemarkWays::end_ways))]
    pub(crate) fn remark_end(
        &mut self,
        number: u64,
        width: u32,
        content: &Content,
    ) -> Result<(), AllocError>
        requires width { IsWidth width }
        requires content { ContentListable width content.now }
        requires fits { number < 2 ^ width }
        ensures { OnOk result (self.new.out.octets ≡ self.old.out.octets ++ (remark width content.now number ++ line_feed ∷ [])) }
    {
        match content {
            Content::Raw => self.octet(b'\n'),
            Content::Table(entries) => self.table_end(entries, number),
            Content::Quantity(scale) => {
                self.octet(b' ')?;
                self.multiple(u128::from(number), width, scale)?;
                self.quoted_end(scale.unit.as_slice())
            }
            content => {
                self.remark(u128::from(number), width, content)?;
                self.octet(b'\n')
            }
        }
    }

    #[inline(always)]
    fn table_end(&mut self, entries: &TableTexts, number: u64) -> Result<(), AllocError>
        ensures { OnOk result (self.new.out.octets ≡ self.old.out.octets ++ (entry_remark (find (λ entry. entry.number == number) entries.now) ++ line_feed ∷ [])) }
    {
        match entry_with(entries, number) {
            None => self.octet(b'\n'),
            Some(entry) => self.quoted_end(entry.text.as_slice()),
        }
    }

    /// A text in quotes, after a space, and the end of the line.
    #[inline(always)]
    #[tactic(auto, using(crate::proofs::RemarkWays::quoted_last))]
    pub(crate) fn quoted_end(&mut self, text: &[u8]) -> Result<(), AllocError>
        ensures { OnOk result (self.new.out.octets ≡ self.old.out.octets ++ (codes " " ++ quoted text.now ++ line_feed ∷ [])) }
    {
        self.out.text3(b" \"", text, b"\"\n")
    }

    /// The remark of an element of so many bits, whose number that is. Nothing is printed where there is none.
    #[tactic(auto, using(crate::proofs::RemarkWays::remark_ways))]
    pub(crate) fn remark(
        &mut self,
        number: u128,
        width: u32,
        content: &Content,
    ) -> Result<(), AllocError>
        requires width { IsWidth width }
        requires content { ContentListable width content.now }
        requires fits { number < 2 ^ width }
        ensures { OnOk result (self.new.out.octets ≡ self.old.out.octets ++ remark width content.now number) }
    {
        match content {
            Content::Raw => Ok(()),
            Content::Table(entries) => self.table_remark(entries, number),
            Content::Ascii => self.characters(number, width, Alphabet::Eight),
            Content::Icao => self.characters(number, width, Alphabet::Six),
            Content::Octal => self.characters(number, width, Alphabet::Three),
            Content::Integer(Sign::Unsigned) => Ok(()),
            Content::Integer(Sign::Signed) => {
                self.octet(b' ')?;
                self.signed(signed_of(number, width))
            }
            Content::Quantity(scale) => self.quantity(number, width, scale),
        }
    }

    fn table_remark(&mut self, entries: &TableTexts, number: u128) -> Result<(), AllocError>
        ensures { OnOk result (self.new.out.octets ≡ self.old.out.octets ++ entry_remark (find (λ entry. entry.number == number) entries.now)) }
    {
        match entry_of(entries, number) {
            None => Ok(()),
            Some(entry) => self.quoted(entry.text.as_slice()),
        }
    }

    /// The characters of an element of so many bits.
    fn characters(&mut self, number: u128, width: u32, alphabet: Alphabet) -> Result<(), AllocError>
        requires { width ≤ 128 }
        ensures { OnOk result (self.new.out.octets ≡ self.old.out.octets ++ (codes " " ++ quoted (characters alphabet width number))) }
    {
        self.octets(b" \"")?;
        self.each_character(number, width, alphabet)?;
        self.octet(b'"')
    }

    #[tactic(auto, using(crate::proofs::RemarkWays::character_ways))]
    fn each_character(
        &mut self,
        number: u128,
        width: u32,
        alphabet: Alphabet,
    ) -> Result<(), AllocError>
        requires { width ≤ 128 }
        ensures { OnOk result (self.new.out.octets ≡ self.old.out.octets ++ characters alphabet width number) }
    {
        let size = alphabet.size();
        let mut left = width / size;
        while left > 0 {
            left -= 1;
            self.octet(alphabet.character(number, size * left))?;
        }
        Ok(())
    }

    /// A quantity: the multiple of its unit, in lowest terms, and the unit.
    #[tactic(auto, using(crate::proofs::Pieces::pieces))]
    fn quantity(&mut self, number: u128, width: u32, scale: &Scale) -> Result<(), AllocError>
        requires width { IsWidth width }
        requires narrow { width ≤ 64 }
        requires denominator { 0 < scale.now.den }
        requires fits { number < 2 ^ width }
        ensures { OnOk result (self.new.out.octets ≡ self.old.out.octets ++ remark width (Quantity scale.now) number) }
    {
        self.octet(b' ')?;
        self.multiple(number, width, scale)?;
        self.quoted(scale.unit.as_slice())?;
        Ok(())
    }

    #[tactic(auto, using(crate::proofs::RemarkWays::multiple_ways))]
    fn multiple(&mut self, number: u128, width: u32, scale: &Scale) -> Result<(), AllocError>
        requires width { IsWidth width }
        requires narrow { width ≤ 64 }
        requires denominator { 0 < scale.now.den }
        requires fits { number < 2 ^ width }
        ensures { OnOk result (self.new.out.octets ≡ self.old.out.octets ++ scaled_text scale.now width number) }
    {
        let (num, den) = (scale.num, scale.den);
        match scale.sign {
            Sign::Unsigned => self.fraction(number as u64, num, den),
            Sign::Signed => {
                let signed = signed_of(number, width);
                if signed < 0 {
                    self.octet(b'-')?;
                }
                self.fraction(signed.unsigned_abs() as u64, num, den)
            }
        }
    }

    /// So many times a fraction, in lowest terms.
    #[tactic(auto, using(crate::proofs::RemarkWays::fraction_ways))]
    pub(crate) fn fraction(&mut self, times: u64, num: u64, den: u64) -> Result<(), AllocError>
        requires { 0 < den }
        ensures { OnOk result (self.new.out.octets ≡ self.old.out.octets ++ reduced_text (times * num) den) }
    {
        let numerator = u128::from(times) * u128::from(num);
        if numerator <= u128::from(u64::MAX) {
            if let Some(twos) = shared_twos(numerator as u64, den) {
                return self
                    .out
                    .decimals(numerator as u64 >> twos, b'/', den >> twos);
            }
        }
        let divisor = common_divisor(numerator, den);
        self.decimal(quotient(numerator, divisor))?;
        self.octet(b'/')?;
        self.decimal(u128::from(den / divisor))
    }
}
