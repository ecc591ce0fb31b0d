//! The listing, piece by piece.
ghost use Rattle.std.specs.Prelude.{◌≡◌, ◌-◌, ◌<◌, ◌≤◌, ◌^◌, [], ◌∷◌, ◌++◌, length, take, drop, decimal, codes, IfOk, OnOk};
ghost use Rattle.ax_format.specs.InBounds.{IsWidth};
ghost use Rattle.ax_tokens.specs.Octets.{line_feed};
ghost use Rattle.ax_text_form.specs.Listable.{ContentListable};
ghost use Rattle.std.specs.Fmt.{signed_decimal};
ghost use Rattle.ax_format.specs.Paths.{at};
ghost use Rattle.ax_text_form.specs.NamedPlaces.{place_path};
ghost use Rattle.ax_text_form.specs.Printing.{PutsLines};
ghost use Rattle.ax_text_form.specs.Remarks.{quoted};
ghost use Rattle.ax_text_form.specs.ShowText.{number_line, count_line, content_line, element_line};
ghost use Rattle.ax_text_form.specs.ValueText.{one_onto, hex_text};

use ax_format::{Content, Name};
use ax_octets::{LinePath, Literal, OctetBuffer};
use itoa::Buffer;
use std::alloc::{AllocError, Global};

/// The place of an element: a path, and the element's name under it.
#[derive(Drop)]
pub struct NamedPlace<'p> {
    pub path: &'p LinePath,
    pub name: &'p Name,
}

/// A listing that lines are put on.
pub struct Lister {
    pub(crate) alloc: Global,
    pub(crate) out: OctetBuffer,
}

impl Drop for Lister {
    fn drop(self) {
        let Lister {
            alloc: _alloc,
            out: _out,
        } = self;
    }
}

impl Lister {
    /// An empty listing. Takes no memory.
    pub fn new(alloc: Global) -> Lister
        ensures none { result.out.octets ≡ [] }
        ensures room { result.out.room ≡ 0 }
    {
        Lister {
            alloc,
            out: OctetBuffer::new(alloc),
        }
    }

    /// An empty path. Takes no memory.
    #[inline(always)]
    pub fn blank_path(&self) -> LinePath
        ensures { result ≡ [] }
    {
        LinePath::new(self.alloc)
    }

    /// The listing.
    pub fn listing(&self) -> &[u8]
        ensures { result.now ≡ self.now.out.octets }
    {
        self.out.as_slice()
    }

    /// The octets of the listing.
    pub fn len(&self) -> usize
        ensures { result ≡ length self.now.out.octets }
    {
        self.out.len()
    }

    /// Takes all lines away. The room stays.
    pub fn clear(&mut self)
        ensures none { self.new.out.octets ≡ [] }
        ensures room { self.new.out.room ≡ self.old.out.room }
    {
        self.out.clear();
    }

    #[inline(always)]
    pub(crate) fn octets(&mut self, text: &[u8]) -> Result<(), AllocError>
        ensures { OnOk result (self.new.out.octets ≡ self.old.out.octets ++ text.now) }
    {
        self.out.text(text)
    }

    #[inline(always)]
    pub(crate) fn octet(&mut self, octet: u8) -> Result<(), AllocError>
        ensures { OnOk result (self.new.out.octets ≡ self.old.out.octets ++ octet ∷ []) }
    {
        self.out.octet(octet)
    }

    /// A number in decimal. Those of 64 bits are divided by themselves, which is faster.
    pub(crate) fn decimal(&mut self, number: u128) -> Result<(), AllocError>
        ensures { OnOk result (self.new.out.octets ≡ self.old.out.octets ++ decimal number) }
    {
        if number <= u128::from(u64::MAX) {
            return self.out.decimal(number as u64);
        }
        let mut buffer = Buffer::new();
        self.octets(buffer.format(number).as_bytes())
    }

    pub(crate) fn signed(&mut self, number: i128) -> Result<(), AllocError>
        ensures { OnOk result (self.new.out.octets ≡ self.old.out.octets ++ signed_decimal number) }
    {
        let mut buffer = Buffer::new();
        if i128::from(i64::MIN) <= number && number <= i128::from(i64::MAX) {
            self.octets(buffer.format(number as i64).as_bytes())
        } else {
            self.octets(buffer.format(number).as_bytes())
        }
    }

    /// A text in quotes, after a space.
    #[tactic(auto, using(crate::proofs::Pieces::pieces))]
    pub(crate) fn quoted(&mut self, text: &[u8]) -> Result<(), AllocError>
        ensures { OnOk result (self.new.out.octets ≡ self.old.out.octets ++ (codes " " ++ quoted text.now)) }
    {
        self.out.text3(b" \"", text, b"\"")
    }

    /// Octets in hexadecimal digits, in quotes.
    #[tactic(auto, using(crate::proofs::Pieces::pieces))]
    pub(crate) fn hex(&mut self, octets: &[u8]) -> Result<(), AllocError>
        ensures { OnOk result (self.new.out.octets ≡ self.old.out.octets ++ hex_text octets.now) }
    {
        let digits = hex::encode(self.alloc, octets)?;
        self.out.text3(b"\"", digits.as_bytes(), b"\"")
    }

    /// The line that says that there are none of something, at a path.
    #[inline(always)]
    pub fn none_of(&mut self, word: &[u8], path: &LinePath) -> Result<(), AllocError>
        ensures { OnOk result (PutsLines (one_onto (count_line path.now word.now 0)) self.old self.new) }
    {
        self.out.path(path)?;
        self.out.text3(b" ", word, b" 0\n")
    }

    /// The line of an explicit content at a path.
    pub fn content_at(&mut self, octets: &[u8], path: &LinePath) -> Result<(), AllocError>
        ensures { OnOk result (PutsLines (one_onto (content_line path.now octets.now)) self.old self.new) }
    {
        self.out.path(path)?;
        self.octets(b" octets ")?;
        self.hex(octets)?;
        self.octet(b'\n')
    }

    /// The line of an element at a path.
    pub fn element_at(
        &mut self,
        number: u128,
        width: u32,
        content: &Content,
        path: &LinePath,
    ) -> Result<(), AllocError>
        requires width { IsWidth width }
        requires content { ContentListable width content.now }
        requires fits { number < 2 ^ width }
        ensures { OnOk result (PutsLines (one_onto (element_line width content.now path.now number)) self.old self.new) }
    {
        self.out.path(path)?;
        self.octets(b" = ")?;
        self.decimal(number)?;
        self.remark(number, width, content)?;
        self.octet(b'\n')
    }

    /// Puts a count in place of the 0 of the count line that ends at `end`.
    pub fn set_count(&mut self, end: usize, count: u32) -> Result<(), AllocError>
        requires { (2 ≤ end) × (end ≤ length self.old.out.octets) }
        ensures { OnOk result (self.new.out.octets ≡ take (end - 2) self.old.out.octets ++ (decimal count ++ drop (end - 1) self.old.out.octets)) }
    {
        if count < 10 {
            self.out.replace(end - 2, b'0' + count as u8);
            return Ok(());
        }
        let moved = Vec::from_slice(self.alloc, &self.out.as_slice()[end - 1..])?;
        self.out.truncate(end - 2);
        self.decimal(u128::from(count))?;
        self.octets(&moved)
    }

    /// The line of spare bits under a path.
    #[inline(never)]
    pub fn spare_under(&mut self, number: u64, path: &LinePath) -> Result<(), AllocError>
        ensures { OnOk result (PutsLines (one_onto (number_line (at path.now (codes "spare")) number)) self.old self.new) }
    {
        self.out
            .named_number(path, b"spare\0\0\0\0\0\0\0\0\0\0\0", 5, number)?;
        self.octet(b'\n')
    }

    /// The line of an element of so many bits at its place.
    #[inline(never)]
    pub fn element_under(
        &mut self,
        number: u64,
        width: u32,
        content: &Content,
        place: &NamedPlace<'_>,
    ) -> Result<(), AllocError>
        requires width { IsWidth width }
        requires content { ContentListable width content.now }
        requires fits { number < 2 ^ width }
        ensures { OnOk result (PutsLines (one_onto (element_line width content.now (place_path place.now) number)) self.old self.new) }
    {
        self.number_under(number, place)?;
        self.remark_end(number, width, content)
    }

    /// The front of the line of a number at its place.
    #[inline(always)]
    pub(crate) fn number_under(
        &mut self,
        number: u64,
        place: &NamedPlace<'_>,
    ) -> Result<(), AllocError>
        ensures { OnOk result (self.new.out.octets ≡ self.old.out.octets ++ number_line (place_path place.now) number) }
    {
        let name = place.name;
        self.out
            .named_number(place.path, name.padded(), name.octets().len(), number)
    }

    /// Puts a path and a literal after it.
    #[inline(always)]
    pub fn literal_under(&mut self, literal: &Literal, path: &LinePath) -> Result<(), AllocError>
        ensures { OnOk result (self.new.out.octets ≡ self.old.out.octets ++ (path.now ++ literal.now)) }
    {
        self.out.path_and_literal(path, literal)
    }

    /// The line of spare bits under a path, of any number.
    pub fn wide_spare_under(&mut self, number: u128, path: &LinePath) -> Result<(), AllocError>
        ensures { OnOk result (PutsLines (one_onto (number_line (at path.now (codes "spare")) number)) self.old self.new) }
    {
        self.out.path(path)?;
        self.out.text3(b"/", b"spare", b" = ")?;
        self.decimal(number)?;
        self.octet(b'\n')
    }
}
