//! Lines of quantities, by ends of their fractions that are made before.
ghost use Rattle.std.specs.Prelude.{◌≡◌, ◌++◌, ◌<◌, ◌^◌, length, OnOk};
ghost use Rattle.ax_format.specs.InBounds.{IsWidth};
ghost use Rattle.ax_format.specs.declared.content.Content.TheVariants.{Quantity};
ghost use Rattle.ax_text_form.specs.FractionEnds.{fraction_end, fraction_ends, in_unit, times_scale};
ghost use Rattle.ax_text_form.specs.Listable.{ContentListable};
ghost use Rattle.ax_text_form.specs.NamedPlaces.{place_path};
ghost use Rattle.ax_text_form.specs.Printing.{PutsLines};
ghost use Rattle.ax_text_form.specs.Remarks.{scaled_text};
ghost use Rattle.ax_text_form.specs.ShowText.{element_line};
ghost use Rattle.ax_text_form.specs.ValueText.{one_onto};

use crate::fractions::shared_twos;
use crate::lister::{Lister, NamedPlace};
use ax_bits::signed_of;
use ax_format::{Scale, Sign};
use ax_octets::Literal;
use std::alloc::AllocError;

/// A scale, with ends of the lines of its quantities that were made before: those of its denominator divided by the powers of
/// two, from the first on.
#[derive(Drop)]
pub struct HeldScale<'s> {
    pub scale: &'s Scale,
    pub ends: &'s [Literal],
    ghost made: { ends.now ≡ fraction_ends scale.now.unit scale.now.den (length ends.now) },
}

impl Lister {
    /// Puts the end of the line of a quantity: what comes after the numerator of its fraction.
    #[tactic(auto, using(crate::proofs::QuantityLines::ends))]
    pub fn put_fraction_end(&mut self, den: u64, unit: &[u8]) -> Result<(), AllocError>
        ensures { OnOk result (self.new.out.octets ≡ self.old.out.octets ++ fraction_end unit.now den) }
    {
        self.octet(b'/')?;
        self.decimal(u128::from(den))?;
        self.quoted_end(unit)?;
        Ok(())
    }

    /// The line of a quantity at its place, by ends of its fraction.
    #[inline(never)]
    pub fn quantity_under(
        &mut self,
        number: u64,
        width: u32,
        held: &HeldScale<'_>,
        place: &NamedPlace<'_>,
    ) -> Result<(), AllocError>
        requires width { IsWidth width }
        requires content { ContentListable width (Quantity held.now.scale.now) }
        requires fits { number < 2 ^ width }
        ensures { OnOk result (PutsLines (one_onto (element_line width (Quantity held.now.scale.now) (place_path place.now) number)) self.old self.new) }
    {
        self.number_under(number, place)?;
        self.octet(b' ')?;
        self.multiple_end(number, width, held)
    }

    /// The multiple of a quantity's unit, and the end of its line.
    #[inline(always)]
    #[tactic(auto, using(crate::proofs::RemarkWays::multiple_ways))]
    fn multiple_end(
        &mut self,
        number: u64,
        width: u32,
        held: &HeldScale<'_>,
    ) -> Result<(), AllocError>
        requires width { IsWidth width }
        requires content { ContentListable width (Quantity held.now.scale.now) }
        requires fits { number < 2 ^ width }
        ensures { OnOk result (self.new.out.octets ≡ self.old.out.octets ++ in_unit held.now.scale.now.unit (scaled_text held.now.scale.now width number)) }
    {
        match held.scale.sign {
            Sign::Unsigned => self.fraction_line(number, held),
            Sign::Signed => {
                let signed = signed_of(u128::from(number), width);
                if signed < 0 {
                    self.octet(b'-')?;
                }
                self.fraction_line(signed.unsigned_abs() as u64, held)
            }
        }
    }

    /// So many times the fraction of a scale in lowest terms, and the end of the line. Where the denominator is a power of two,
    /// the end is one of those that were made.
    #[inline(always)]
    #[tactic(auto, using(crate::proofs::QuantityLines::lines))]
    fn fraction_line(&mut self, times: u64, held: &HeldScale<'_>) -> Result<(), AllocError>
        requires den { 0 < held.now.scale.now.den }
        ensures { OnOk result (self.new.out.octets ≡ self.old.out.octets ++ times_scale held.now.scale.now times) }
    {
        let (scale, ends) = (held.scale, held.ends);
        let numerator = u128::from(times) * u128::from(scale.num);
        if numerator <= u128::from(u64::MAX) {
            if let Some(twos) = shared_twos(numerator as u64, scale.den) {
                if (twos as usize) < ends.len() {
                    let end = &ends[twos as usize];
                    return self.out.number_and_literal(numerator as u64 >> twos, end);
                }
            }
        }
        self.fraction(times, scale.num, scale.den)?;
        self.quoted_end(scale.unit.as_slice())?;
        Ok(())
    }
}
