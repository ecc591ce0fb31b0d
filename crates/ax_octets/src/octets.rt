//! Octets, as they are appended.
ghost use Rattle.std.specs.Prelude.{◌≡◌, ◌+◌, ◌<◌, ◌≤◌, ◌^◌, [], ◌∷◌, ◌++◌, length, take, set, codes, decimal, OnOk, IsTrue, ◌↔◌};
ghost use Rattle.ax_octets.specs.Buffers.{RoomIsFor};

use crate::digits::place_decimal;
use crate::literal::Literal;
use crate::path::LinePath;
use crate::place::{place_octet, place_some, place_text};
use crate::room::{lengthen, make_room};
use std::alloc::{AllocError, Global};
use std::marker::Model;

/// Octets that others are appended to. Contracts see those so far. The memory after them is set ahead, so that a piece is
/// stored with one test; it is kept when they are taken away.
pub struct OctetBuffer {
    area: Vec<u8>,
    filled: usize,
}

impl Drop for OctetBuffer {
    fn drop(self) {
        let OctetBuffer {
            area: _area,
            filled: _filled,
        } = self;
    }
}

impl Model for OctetBuffer {
    ghost use Rattle.std.specs.Prelude.{◌≤◌, length, take};
    ghost use Rattle.ax_octets.specs.Buffers.{Buffered};

    ghost Value = { Buffered };

    ghost view = { λ o. record { octets = take o.filled o.area.items; room = length o.area.items } };

    ghost invariant = { λ o. o.filled ≤ length o.area.items };
}

impl OctetBuffer {
    /// No octets. Takes no memory.
    pub fn new(alloc: Global) -> OctetBuffer
        ensures none { result.octets ≡ [] }
        ensures room { result.room ≡ 0 }
    {
        OctetBuffer {
            area: Vec::new(alloc),
            filled: 0,
        }
    }

    /// The octets.
    pub fn as_slice(&self) -> &[u8]
        ensures { result.now ≡ self.now.octets }
    {
        &self.area[..self.filled]
    }

    /// How many octets there are.
    pub fn len(&self) -> usize
        ensures { result ≡ length self.now.octets }
    {
        self.filled
    }

    /// Keeps the first `count` octets.
    pub fn truncate(&mut self, count: usize)
        ensures kept { self.new.octets ≡ take count self.old.octets }
        ensures room { self.new.room ≡ self.old.room }
    {
        if count < self.filled {
            self.filled = count;
        }
    }

    /// Takes all octets away.
    pub fn clear(&mut self)
        ensures none { self.new.octets ≡ [] }
        ensures room { self.new.room ≡ self.old.room }
    {
        self.filled = 0;
    }

    /// Appends one octet. Err is want of memory, and then they stay.
    #[inline(always)]
    pub fn octet(&mut self, octet: u8) -> Result<(), AllocError>
        ensures appended { OnOk result (self.new.octets ≡ self.old.octets ++ octet ∷ []) }
        ensures room { OnOk result (RoomIsFor self.old self.new) }
    {
        if self.filled >= self.area.len() {
            return self.text_in_more(&[octet]);
        }
        self.filled = place_octet(self.area.as_mut_slice(), self.filled, octet);
        Ok(())
    }

    /// Appends a text. Err is want of memory, and then they stay.
    #[inline(always)]
    pub fn text(&mut self, text: &[u8]) -> Result<(), AllocError>
        ensures appended { OnOk result (self.new.octets ≡ self.old.octets ++ text.now) }
        ensures room { OnOk result (RoomIsFor self.old self.new) }
    {
        if text.len() > self.area.len() - self.filled {
            return self.text_in_more(text);
        }
        self.filled = place_text(self.area.as_mut_slice(), self.filled, text);
        Ok(())
    }

    /// Appends three texts, where there is room for all.
    #[inline(always)]
    pub fn text3(&mut self, a: &[u8], b: &[u8], c: &[u8]) -> Result<(), AllocError>
        ensures appended { OnOk result (self.new.octets ≡ self.old.octets ++ (a.now ++ (b.now ++ c.now))) }
        ensures room { OnOk result (RoomIsFor self.old self.new) }
    {
        let room = self.area.len() - self.filled;
        if !three_fit(room, a.len(), b.len(), c.len()) {
            return self.each3(a, b, c);
        }
        let area = self.area.as_mut_slice();
        let at = place_text(area, self.filled, a);
        let at = place_text(area, at, b);
        self.filled = place_text(area, at, c);
        Ok(())
    }

    #[cold]
    #[inline(never)]
    fn each3(&mut self, a: &[u8], b: &[u8], c: &[u8]) -> Result<(), AllocError>
        ensures appended { OnOk result (self.new.octets ≡ self.old.octets ++ (a.now ++ (b.now ++ c.now))) }
        ensures room { OnOk result (RoomIsFor self.old self.new) }
    {
        self.text(a)?;
        self.text(b)?;
        self.text(c)
    }

    /// Appends a number in decimal. Err is want of memory, and then they stay.
    #[inline(always)]
    pub fn decimal(&mut self, number: u64) -> Result<(), AllocError>
        ensures appended { OnOk result (self.new.octets ≡ self.old.octets ++ decimal number) }
        ensures room { OnOk result (RoomIsFor self.old self.new) }
    {
        make_room(&mut self.area, self.filled, 20)?;
        self.filled = place_decimal(self.area.as_mut_slice(), self.filled, number);
        Ok(())
    }

    /// Appends two numbers in decimal with an octet between.
    #[inline(always)]
    pub fn decimals(&mut self, first: u64, between: u8, second: u64) -> Result<(), AllocError>
        ensures appended { OnOk result (self.new.octets ≡ self.old.octets ++ (decimal first ++ between ∷ decimal second)) }
        ensures room { OnOk result (RoomIsFor self.old self.new) }
    {
        make_room(&mut self.area, self.filled, 41)?;
        let area = self.area.as_mut_slice();
        let at = place_decimal(area, self.filled, first);
        let at = place_octet(area, at, between);
        self.filled = place_decimal(area, at, second);
        Ok(())
    }

    /// Appends a path.
    #[inline(always)]
    pub fn path(&mut self, path: &LinePath) -> Result<(), AllocError>
        ensures appended { OnOk result (self.new.octets ≡ self.old.octets ++ path.now) }
        ensures room { OnOk result (RoomIsFor self.old self.new) }
    {
        if path.count > 32 || !path.rest.is_empty() {
            return self.long_path(path);
        }
        make_room(&mut self.area, self.filled, 32)?;
        self.filled = place_some::<32>(
            self.area.as_mut_slice(),
            self.filled,
            &path.front,
            path.count,
        );
        Ok(())
    }

    #[cold]
    #[inline(never)]
    fn long_path(&mut self, path: &LinePath) -> Result<(), AllocError>
        ensures appended { OnOk result (self.new.octets ≡ self.old.octets ++ path.now) }
        ensures room { OnOk result (RoomIsFor self.old self.new) }
    {
        self.text(&path.front[..path.count])?;
        self.text(&path.rest)
    }

    /// Appends a path and a literal.
    #[inline(always)]
    pub fn path_and_literal(&mut self, path: &LinePath, literal: &Literal) -> Result<(), AllocError>
        ensures appended { OnOk result (self.new.octets ≡ self.old.octets ++ (path.now ++ literal.now)) }
        ensures room { OnOk result (RoomIsFor self.old self.new) }
    {
        if path.count > 32 || !path.rest.is_empty() {
            return self.path_and_literal_in_turn(path, literal);
        }
        make_room(&mut self.area, self.filled, 96)?;
        let area = self.area.as_mut_slice();
        let at = place_some::<32>(area, self.filled, &path.front, path.count);
        self.filled = place_some::<64>(area, at, &literal.octets, literal.count);
        Ok(())
    }

    #[cold]
    #[inline(never)]
    fn path_and_literal_in_turn(
        &mut self,
        path: &LinePath,
        literal: &Literal,
    ) -> Result<(), AllocError>
        ensures appended { OnOk result (self.new.octets ≡ self.old.octets ++ (path.now ++ literal.now)) }
        ensures room { OnOk result (RoomIsFor self.old self.new) }
    {
        self.long_path(path)?;
        self.text(&literal.octets[..literal.count])
    }

    /// Appends a number in decimal and a literal.
    #[inline(always)]
    pub fn number_and_literal(&mut self, number: u64, literal: &Literal) -> Result<(), AllocError>
        ensures appended { OnOk result (self.new.octets ≡ self.old.octets ++ (decimal number ++ literal.now)) }
        ensures room { OnOk result (RoomIsFor self.old self.new) }
    {
        make_room(&mut self.area, self.filled, 84)?;
        let area = self.area.as_mut_slice();
        let at = place_decimal(area, self.filled, number);
        self.filled = place_some::<64>(area, at, &literal.octets, literal.count);
        Ok(())
    }

    /// Appends a path and a name under it, which is the first `count` of 16 octets, and the number that it has.
    #[inline(always)]
    pub fn named_number(
        &mut self,
        path: &LinePath,
        name: &[u8],
        count: usize,
        number: u64,
    ) -> Result<(), AllocError>
        requires name { (16 ≤ length name.now) × (count ≤ 16) }
        ensures appended { OnOk result (self.new.octets ≡ self.old.octets ++ (path.now ++ (codes "/" ++ (take count name.now ++ (codes " = " ++ decimal number))))) }
        ensures room { OnOk result (RoomIsFor self.old self.new) }
    {
        if path.count > 32 || !path.rest.is_empty() {
            return self.named_number_in_turn(path, name, count, number);
        }
        make_room(&mut self.area, self.filled, 72)?;
        let area = self.area.as_mut_slice();
        let at = place_some::<32>(area, self.filled, &path.front, path.count);
        let at = place_octet(area, at, b'/');
        let at = place_some::<16>(area, at, name, count);
        let at = place_text(area, at, b" = ");
        self.filled = place_decimal(area, at, number);
        Ok(())
    }

    #[cold]
    #[inline(never)]
    fn named_number_in_turn(
        &mut self,
        path: &LinePath,
        name: &[u8],
        count: usize,
        number: u64,
    ) -> Result<(), AllocError>
        requires name { (16 ≤ length name.now) × (count ≤ 16) }
        ensures appended { OnOk result (self.new.octets ≡ self.old.octets ++ (path.now ++ (codes "/" ++ (take count name.now ++ (codes " = " ++ decimal number))))) }
        ensures room { OnOk result (RoomIsFor self.old self.new) }
    {
        self.long_path(path)?;
        self.text3(b"/", &name[..count], b" = ")?;
        self.decimal(number)
    }

    /// Writes octet number `at` again, from 0.
    pub fn replace(&mut self, at: usize, octet: u8)
        requires { at < length self.old.octets }
        ensures replaced { self.new.octets ≡ set self.old.octets at octet }
        ensures room { self.new.room ≡ self.old.room }
    {
        self.area[at] = octet;
    }

    /// Makes room for a text and for as many octets again as there were, and appends it.
    #[cold]
    #[inline(never)]
    fn text_in_more(&mut self, text: &[u8]) -> Result<(), AllocError>
        requires { self.old.room < length self.old.octets + length text.now }
        ensures appended { OnOk result (self.new.octets ≡ self.old.octets ++ text.now) }
        ensures room { OnOk result (RoomIsFor self.old self.new) }
    {
        lengthen(&mut self.area, text.len())?;
        self.filled = place_text(self.area.as_mut_slice(), self.filled, text);
        Ok(())
    }
}

/// Whether there is room for three texts of these lengths.
#[inline(always)]
fn three_fit(room: usize, a: usize, b: usize, c: usize) -> bool
    ensures { IsTrue result ↔ a + b + c ≤ room }
{
    a <= room && b <= room - a && c <= room - a - b
}
