//! Lines of elements of few bits, made once.
ghost use Rattle.std.specs.Prelude.{◌≡◌, ◌<◌, ◌≤◌, ◌^◌, length, IfOk, IfSome, IsTrue};
ghost use Rattle.ax_held_kinds.specs.Lines.{line_end, line_ends};
ghost use Rattle.ax_format.specs.InBounds.{IsWidth};
ghost use Rattle.ax_format.specs.Plain.{fixed_tree};
ghost use Rattle.ax_format.specs.Tree.{element};
ghost use Rattle.ax_format.specs.declared.content.Content.TheVariants.{Quantity};
ghost use Rattle.ax_text_form.specs.FractionEnds.{fraction_end, fraction_ends};
ghost use Rattle.ax_text_form.specs.Listable.{ContentListable};

use ax_format::{Content, Fixed, Name, Scale};
use ax_lists::Sequence;
use ax_octets::Literal;
use ax_text_form::{Lister, NamedPlace};
use std::alloc::{AllocError, Global};

/// The lines of the numbers of an element, from 0 on, each without the path above the element's name.
pub type NumberLines = Sequence<Literal>;

/// An element of few bits that is a member of that name, with its lines.
#[derive(Drop)]
pub struct ShortElement<'s> {
    pub name: Name,
    pub width: u32,
    pub content: &'s Content,
    pub lines: NumberLines,
    ghost few: { width ≤ 7 },
    ghost made: { lines ≡ line_ends name width content.now (2 ^ width) },
}

/// A quantity, with what ends the lines of its numbers: by how often two divides both numbers of the fraction, what comes after
/// the numerator.
#[derive(Drop)]
pub struct HeldQuantity<'s> {
    pub content: &'s Content,
    pub scale: &'s Scale,
    pub ends: NumberLines,
    ghost same: { content.now ≡ Quantity scale.now },
    ghost made: { ends ≡ fraction_ends scale.now.unit scale.now.den (length ends) },
}

impl<'s> ShortElement<'s> {
    /// The line of that number.
    #[inline(always)]
    #[tactic(auto, using(crate::proofs::LineEnds::lookups))]
    pub fn line(&self, number: u64) -> &Literal
        requires { number < 2 ^ self.now.width }
        ensures { result.now ≡ line_end self.now.name self.now.width self.now.content.now number }
    {
        &self.lines.as_slice()[number as usize]
    }
}

/// Whether lines are made of an element: they are of at most 5 bits, and of a table of at most 7.
fn is_short(width: u32, content: &Content) -> bool
    ensures few { IsTrue result → (1 ≤ width) × (width ≤ 7) }
    ensures listable { IsTrue result → ContentListable width content.now }
{
    match content {
        Content::Table(_) => 1 <= width && width <= 7,
        Content::Quantity(scale) => 1 <= width && width <= 5 && scale.den > 0,
        _ => 1 <= width && width <= 5,
    }
}

/// What makes lines, and how many literals it may still make: of this file, and of all.
#[derive(Drop)]
pub struct LineMaker {
    lister: Lister,
    left: u32,
    whole: u32,
}

impl LineMaker {
    /// One that may make literals of some 4 MB in all. Takes no memory.
    pub fn new(alloc: Global) -> LineMaker {
        LineMaker {
            lister: Lister::new(alloc),
            left: 0,
            whole: 58_000,
        }
    }

    /// Begins a file of so many octets: what is made of it is bounded by eight times these, of which a literal takes nine.
    pub(crate) fn begin(&mut self, octets: u32) {
        self.left = self.whole.min(octets / 9);
    }

    /// Takes so many literals off those that may be made. False comes where fewer are left.
    fn take(&mut self, count: u32) -> bool {
        if count > self.left {
            return false;
        }
        self.left -= count;
        self.whole = self.whole.saturating_sub(count);
        true
    }

    /// The line of that number. None comes where it is longer than a literal.
    #[tactic(auto, using(crate::proofs::LineEnds::ends))]
    fn line(
        &mut self,
        name: &Name,
        width: u32,
        content: &Content,
        number: u64,
    ) -> Result<Option<Literal>, AllocError>
        requires width { IsWidth width }
        requires content { ContentListable width content.now }
        requires fits { number < 2 ^ width }
        ensures { IfOk result (λ found. IfSome found (λ line. line ≡ line_end name.now width content.now number)) }
    {
        self.lister.clear();
        let above = self.lister.blank_path();
        let place = NamedPlace { path: &above, name };
        self.lister.element_under(number, width, content, &place)?;
        Ok(Literal::of(self.lister.listing()))
    }

    /// The lines of all numbers. None comes where one is longer than a literal, or they are more than may be made.
    #[tactic(auto, using(crate::proofs::LineEnds::ends))]
    fn lines(
        &mut self,
        alloc: Global,
        name: &Name,
        width: u32,
        content: &Content,
    ) -> Result<Option<NumberLines>, AllocError>
        requires width { (1 ≤ width) × (width ≤ 7) }
        requires content { ContentListable width content.now }
        ensures { IfOk result (λ found. IfSome found (λ lines. lines ≡ line_ends name.now width content.now (2 ^ width))) }
    {
        let count = 1u32 << width;
        if !self.take(count) {
            return Ok(None);
        }
        let mut lines = NumberLines::with_capacity(alloc, count)?;
        for number in 0..count {
            match self.line(name, width, content, u64::from(number))? {
                Some(line) => lines.push(line)?,
                None => return Ok(None),
            }
        }
        Ok(Some(lines))
    }

    /// An element of few bits as a member of that name, with its lines. None comes where they aren't made.
    fn short_of<'s>(
        &mut self,
        alloc: Global,
        name: &Name,
        width: u32,
        content: &'s Content,
    ) -> Result<Option<ShortElement<'s>>, AllocError>
        ensures name { IfOk result (λ found. IfSome found (λ short. short.name ≡ name.now)) }
        ensures element { IfOk result (λ found. IfSome found (λ short. element short.width short.content.now ≡ element width content.now)) }
    {
        if !is_short(width, content) {
            return Ok(None);
        }
        match self.lines(alloc, name, width, content)? {
            None => Ok(None),
            Some(lines) => Ok(Some(ShortElement {
                name: *name,
                width,
                content,
                lines,
            })),
        }
    }

    /// The member of that name that a fixed kind is, with its lines. None comes where they aren't made.
    pub(crate) fn short<'s>(
        &mut self,
        alloc: Global,
        name: &Name,
        fixed: &'s Fixed,
    ) -> Result<Option<ShortElement<'s>>, AllocError>
        ensures name { IfOk result (λ found. IfSome found (λ short. short.name ≡ name.now)) }
        ensures element { IfOk result (λ found. IfSome found (λ short. element short.width short.content.now ≡ fixed_tree fixed.now)) }
    {
        match fixed {
            Fixed::Element { width, content } => self.short_of(alloc, name, *width, content),
            Fixed::Group(_) => Ok(None),
        }
    }

    /// What comes after the numerator of a fraction in the line of a quantity. None comes where it is longer than a literal.
    fn fraction_end(&mut self, den: u64, unit: &[u8]) -> Result<Option<Literal>, AllocError>
        ensures { IfOk result (λ found. IfSome found (λ end. end ≡ fraction_end unit.now den)) }
    {
        self.lister.clear();
        self.lister.put_fraction_end(den, unit)?;
        Ok(Literal::of(self.lister.listing()))
    }

    /// Those of a denominator and its halves, where it is a power of two and as far as they are made.
    #[tactic(auto, using(ax_text_form::proofs::QuantityLines::makes))]
    fn fraction_ends(&mut self, alloc: Global, scale: &Scale) -> Result<NumberLines, AllocError>
        ensures { IfOk result (λ ends. ends ≡ fraction_ends scale.now.unit scale.now.den (length ends)) }
    {
        let mut ends = NumberLines::new(alloc);
        if !scale.den.is_power_of_two() {
            return Ok(ends);
        }
        for twos in 0..64u32 {
            let den = scale.den >> twos;
            if den == 0 || !self.take(1) {
                break;
            }
            match self.fraction_end(den, scale.unit.as_slice())? {
                Some(end) => ends.push(end)?,
                None => break,
            }
        }
        Ok(ends)
    }

    /// A quantity with the ends of its lines.
    pub(crate) fn quantity<'s>(
        &mut self,
        alloc: Global,
        content: &'s Content,
        scale: &'s Scale,
    ) -> Result<HeldQuantity<'s>, AllocError>
        requires { content.now ≡ Quantity scale.now }
        ensures { IfOk result (λ made. made.scale.now ≡ scale.now) }
    {
        let ends = self.fraction_ends(alloc, scale)?;
        Ok(HeldQuantity {
            content,
            scale,
            ends,
        })
    }
}
