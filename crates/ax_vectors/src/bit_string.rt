//! Bits that are put one after the other into octets.
ghost use Rattle.std.specs.Prelude.{◌≡◌, ◌*◌, ◌+◌, ◌%◌, ◌^◌, ◌<◌, ◌≤◌, ◌++◌, [], length, take, drop, if◌then◌else◌, is_ok, OnOk, OnErr};
ghost use Rattle.ax_bits.specs.Bits.{word, bits};

use ax_bits::put_bits;
use std::alloc::{AllocError, Global};
use std::marker::Model;

/// A growing string of bits. Contracts see it as the list of them.
#[derive(Drop)]
pub(crate) struct BitString {
    alloc: Global,
    octets: Vec<u8>,
    // How many bits of the last octet are free.
    free: u32,
}

impl Model for BitString {
    ghost use Rattle.std.specs.Prelude.{ℕ, List, ◌<◌, ◌≤◌, ◌*◌, ◌-◌, length, take};
    ghost use Rattle.ax_bits.specs.Bits.{bits};

    ghost Value = { List ℕ };

    ghost view = { λ b. take (8 * length b.octets.items - b.free) (bits b.octets.items) };

    ghost invariant = { λ b. (b.free < 8) × (b.free ≤ 8 * length b.octets.items) };
}

impl BitString {
    /// A string without bits.
    pub(crate) fn new(alloc: Global) -> BitString
        ensures { result ≡ [] }
    {
        BitString {
            alloc,
            octets: Vec::new(alloc),
            free: 0,
        }
    }

    /// By what its memory is taken.
    pub(crate) fn alloc(&self) -> Global {
        self.alloc
    }

    /// Puts the `width` bits that spell `value` after the others. Without memory it is as before.
    pub(crate) fn push(&mut self, value: u128, width: u32) -> Result<(), AllocError>
        requires width { (1 ≤ width) × (width ≤ 128) }
        requires fits { value < 2 ^ width }
        ensures { self.new ≡ (if is_ok result then self.old ++ word width value else self.old) }
    {
        let begun = (self.free + 7) / 8;
        let more = (width + 7 - self.free) / 8;
        let from = self.octets.len() - begun as usize;
        let at = 8 * begun - self.free;
        grow(&mut self.octets, more as usize)?;
        put_after(&mut self.octets, from, at, width, value);
        self.free = self.free + 8 * more - width;
        Ok(())
    }

    /// The octets that the bits make up, where they are whole ones.
    pub(crate) fn into_octets(self) -> Vec<u8>
        requires { length self % 8 ≡ 0 }
        ensures { bits result.items ≡ self }
    {
        self.octets
    }
}

/// Puts up to 16 zeros after the octets. Without memory they are as before.
fn grow(octets: &mut Vec<u8>, count: usize) -> Result<(), AllocError>
    requires { count ≤ 16 }
    ensures length { OnOk result (length octets.new.items ≡ length octets.old.items + count) }
    ensures front { OnOk result (take (length octets.old.items) octets.new.items ≡ octets.old.items) }
    ensures same { OnErr result (octets.new.items ≡ octets.old.items) }
{
    octets.extend_from_slice(&[0; 16][..count])
}

/// Writes `value` into `width` bits of the octets, from bit `at` of octet `from` on. All other bits stay.
#[tactic(auto, using(crate::proofs::Pushing::put_there))]
fn put_after(octets: &mut [u8], from: usize, at: u32, width: u32, value: u128)
    requires width { (1 ≤ width) × (width ≤ 128) }
    requires at { at < 8 }
    requires within { 8 * from + at + width ≤ 8 * length octets.old }
    requires fits { value < 2 ^ width }
    ensures { bits octets.new ≡ take (8 * from + at) (bits octets.old) ++ (word width value ++ drop (8 * from + at + width) (bits octets.old)) }
{
    put_bits(&mut octets[from..], at, width, value);
}
