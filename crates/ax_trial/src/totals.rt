//! The numbers of the line.
ghost use Rattle.std.specs.Prelude.{◌≡◌, ◌+◌, ◌*◌, ◌<◌, ◌≤◌, ◌++◌, length, decimal, IfOk, OnOk};
ghost use Rattle.ax_format.specs.Sizes.{longest_block};
ghost use Rattle.ax_trial.specs.Trial.{numbers_line};
ghost use Rattle.ax_trial.specs.Counting.{IsWithin, AddsNumbers};

use crate::block::sum_of;
use itoa::Buffer;
use std::alloc::{AllocError, Global};

/// How many blocks, records, octets and canonical octets there are, and the sum of the canonical octets.
#[derive(Clone, Copy)]
pub(crate) struct Totals {
    pub blocks: u32,
    pub records: u64,
    pub octets: u64,
    pub canonical: u64,
    pub sum: u64,
}

impl Totals {
    /// Those of no block.
    pub(crate) fn none() -> Totals
        ensures { result ≡ record { blocks = 0; records = 0; octets = 0; canonical = 0; sum = 0 } }
    {
        Totals {
            blocks: 0,
            records: 0,
            octets: 0,
            canonical: 0,
            sum: 0,
        }
    }

    /// Counts one block more: its records, its octets and its canonical form.
    pub(crate) fn add(&mut self, records: u32, octets: &[u8], canonical: &[u8])
        requires within { IsWithin self.old }
        requires few { self.old.blocks < 1000000 }
        requires octets { length octets.now ≤ longest_block }
        requires canonical { length canonical.now ≤ longest_block }
        ensures { AddsNumbers self.old self.new records octets.now canonical.now }
    {
        self.blocks += 1;
        self.records += records as u64;
        self.octets += octets.len() as u64;
        self.canonical += canonical.len() as u64;
        self.sum += sum_of(canonical);
    }

    /// The line of these numbers.
    pub(crate) fn line(&self, alloc: Global) -> Result<Vec<u8>, AllocError>
        ensures { IfOk result (λ line. line.items ≡ numbers_line self.now.blocks self.now.records self.now.octets self.now.canonical self.now.sum) }
    {
        let mut line = Vec::new(alloc);
        push_number(&mut line, b"blocks ", self.blocks as u64)?;
        push_number(&mut line, b" records ", self.records)?;
        push_number(&mut line, b" octets ", self.octets)?;
        push_number(&mut line, b" canonical ", self.canonical)?;
        push_number(&mut line, b" sum ", self.sum)?;
        line.extend_from_slice(b"\n")?;
        Ok(line)
    }
}

/// Puts a number after what stands before it.
fn push_number(line: &mut Vec<u8>, before: &[u8], number: u64) -> Result<(), AllocError>
    ensures { OnOk result (line.new.items ≡ line.old.items ++ (before.now ++ decimal number)) }
{
    let mut digits = Buffer::new();
    line.extend_from_slice(before)?;
    line.extend_from_slice(digits.format(number).as_bytes())
}
