//! Paths, to which names and numbers of occurrences are added.
ghost use Rattle.std.specs.Prelude.{◌≡◌, ◌≤◌, [], ◌++◌, length, take, codes, decimal, OnOk};

use crate::digits::place_decimal;
use crate::place::{place_octet, place_some, place_text};
use std::alloc::{AllocError, Global};
use std::marker::Model;

/// A path. Contracts see its octets. A short one stands in place, in an array, and takes no memory.
pub struct LinePath {
    pub(crate) front: [u8; 64],
    /// How many octets of the array count.
    pub(crate) count: usize,
    /// What comes after those; nothing where the path is short.
    pub(crate) rest: Vec<u8>,
}

impl Drop for LinePath {
    fn drop(self) {
        let LinePath {
            front: _front,
            count: _count,
            rest: _rest,
        } = self;
    }
}

impl Model for LinePath {
    ghost use Rattle.std.specs.Prelude.{List, ℕ, ◌≤◌, ◌≡◌, ◌++◌, length, take};

    ghost Value = { List ℕ };

    ghost view = { λ path. take path.count path.front ++ path.rest.items };

    ghost invariant = { λ path. (path.count ≤ 64) × (length path.front ≡ 64) };
}

impl LinePath {
    /// The empty path. Takes no memory.
    #[inline(always)]
    pub fn new(alloc: Global) -> LinePath
        ensures { result ≡ [] }
    {
        LinePath {
            front: [0; 64],
            count: 0,
            rest: Vec::new(alloc),
        }
    }

    /// Makes it the path of those octets, of which there are at most 64.
    pub fn set(&mut self, octets: &[u8])
        requires { length octets.now ≤ 64 }
        ensures { self.new ≡ octets.now }
    {
        self.rest.clear();
        self.count = place_text(&mut self.front, 0, octets);
    }

    /// Makes it another path with a slash and a name after it, which is the first `count` of 16 octets. Err is want of memory.
    #[inline(always)]
    pub fn set_named(
        &mut self,
        above: &LinePath,
        name: &[u8],
        count: usize,
    ) -> Result<(), AllocError>
        requires { (16 ≤ length name.now) × (count ≤ 16) }
        ensures { OnOk result (self.new ≡ above.now ++ (codes "/" ++ take count name.now)) }
    {
        if above.count > 32 || !above.rest.is_empty() {
            return self.set_longer(above, b"/", &name[..count]);
        }
        self.rest.clear();
        let front: &mut [u8] = &mut self.front;
        let at = place_some::<32>(front, 0, &above.front, above.count);
        let at = place_octet(front, at, b'/');
        self.count = place_some::<16>(front, at, name, count);
        Ok(())
    }

    /// Makes it another path with a number in brackets after it. Err is want of memory.
    pub fn set_numbered(&mut self, above: &LinePath, number: u32) -> Result<(), AllocError>
        ensures { OnOk result (self.new ≡ above.now ++ (codes "[" ++ (decimal number ++ codes "]"))) }
    {
        if above.count > 32 || !above.rest.is_empty() {
            return self.set_longer_by_number(above, number);
        }
        self.rest.clear();
        let front: &mut [u8] = &mut self.front;
        let at = place_some::<32>(front, 0, &above.front, above.count);
        let at = place_octet(front, at, b'[');
        let at = place_decimal(front, at, u64::from(number));
        self.count = place_octet(front, at, b']');
        Ok(())
    }

    #[cold]
    #[inline(never)]
    fn set_longer_by_number(&mut self, above: &LinePath, number: u32) -> Result<(), AllocError>
        ensures { OnOk result (self.new ≡ above.now ++ (codes "[" ++ (decimal number ++ codes "]"))) }
    {
        let mut room = [0; 24];
        let digits: &mut [u8] = &mut room;
        let at = place_decimal(digits, 0, u64::from(number));
        let at = place_octet(digits, at, b']');
        self.set_longer(above, b"[", &digits[..at])
    }

    /// Makes it another path with two texts after it, which stand where no array's room is asked for.
    #[cold]
    #[inline(never)]
    fn set_longer(
        &mut self,
        above: &LinePath,
        first: &[u8],
        second: &[u8],
    ) -> Result<(), AllocError>
        ensures { OnOk result (self.new ≡ above.now ++ (first.now ++ second.now)) }
    {
        self.count = 0;
        let rest = &mut self.rest;
        rest.clear();
        rest.extend_from_slice(&above.front[..above.count])?;
        rest.extend_from_slice(&above.rest)?;
        rest.extend_from_slice(first)?;
        rest.extend_from_slice(second)
    }
}
