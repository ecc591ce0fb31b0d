//! The lines of blocks and of records.
ghost use Rattle.std.specs.Prelude.{◌≡◌, ◌++◌, codes, decimal, OnOk};
ghost use Rattle.ax_text_form.specs.Printing.{PutsLines};
ghost use Rattle.ax_text_form.specs.ShowText.{block_front, OpaqueShown};
ghost use Rattle.ax_text_form.specs.ValueText.{one_onto};

use crate::lister::Lister;
use ax_format::category_digits;
use std::alloc::AllocError;

impl Lister {
    /// The line of a block of records.
    pub fn block_line(
        &mut self,
        number: u64,
        category: u8,
        octets: u64,
        records: u32,
    ) -> Result<(), AllocError>
        ensures { OnOk result (PutsLines (one_onto (block_front number category octets ++ codes " records " ++ decimal records)) self.old self.new) }
    {
        self.front(number, category, octets)?;
        self.octets(b" records ")?;
        self.decimal(u128::from(records))?;
        self.octet(b'\n')
    }

    /// The line of an opaque block, from its octets after LEN.
    #[tactic(auto, using(crate::proofs::ShowWays::opaque_line_ways))]
    pub fn opaque_line(
        &mut self,
        number: u64,
        category: u8,
        octets: &[u8],
    ) -> Result<(), AllocError>
        ensures { OnOk result (self.new.out.octets ≡ self.old.out.octets ++ OpaqueShown number category octets.now) }
    {
        self.front(number, category, 3 + octets.len() as u64)?;
        self.octets(b" opaque ")?;
        self.hex(octets)?;
        self.octet(b'\n')?;
        Ok(())
    }

    /// The line of a record of that number in its block.
    pub fn record_front(&mut self, number: u32) -> Result<(), AllocError>
        ensures { OnOk result (PutsLines (one_onto (codes "record " ++ decimal number)) self.old self.new) }
    {
        self.octets(b"record ")?;
        self.decimal(u128::from(number))?;
        self.octet(b'\n')
    }

    /// The front of a block's line.
    fn front(&mut self, number: u64, category: u8, octets: u64) -> Result<(), AllocError>
        ensures { OnOk result (self.new.out.octets ≡ self.old.out.octets ++ block_front number category octets) }
    {
        self.octets(b"block ")?;
        self.decimal(u128::from(number))?;
        self.octets(b" category ")?;
        self.octets(&category_digits(category))?;
        self.octets(b" octets ")?;
        self.decimal(u128::from(octets))
    }
}
