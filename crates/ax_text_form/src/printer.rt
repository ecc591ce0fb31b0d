//! The output, token by token.
ghost use Rattle.std.specs.Prelude.{decimal, OnOk};
ghost use Rattle.ax_text_form.specs.Printing.{PutsTexts};
ghost use Rattle.ax_text_form.specs.ValueText.{one_onto, hex_text};

use itoa::Buffer;
use std::alloc::{AllocError, Global};

/// Prints tokens, each after a space.
#[derive(Drop)]
pub(crate) struct TreePrinter {
    pub(crate) alloc: Global,
    pub(crate) out: Vec<u8>,
}

impl TreePrinter {
    /// Any token.
    #[tactic(auto, using(crate::proofs::Printed::text_put))]
    pub(crate) fn text(&mut self, text: &[u8]) -> Result<(), AllocError>
        ensures { OnOk result (PutsTexts (one_onto text.now) self.old self.new) }
    {
        self.out.push(b' ')?;
        self.out.extend_from_slice(text)?;
        Ok(())
    }

    /// A number in decimal. Those of 64 bits are divided by themselves, which is faster.
    pub(crate) fn number(&mut self, number: u128) -> Result<(), AllocError>
        ensures { OnOk result (PutsTexts (one_onto (decimal number)) self.old self.new) }
    {
        let mut buffer = Buffer::new();
        if number <= u128::from(u64::MAX) {
            self.text(buffer.format(number as u64).as_bytes())
        } else {
            self.text(buffer.format(number).as_bytes())
        }
    }

    /// Octets in hexadecimal digits, in quotes.
    #[tactic(auto, using(crate::proofs::Printed::hex_put))]
    pub(crate) fn hex(&mut self, octets: &[u8]) -> Result<(), AllocError>
        ensures { OnOk result (PutsTexts (one_onto (hex_text octets.now)) self.old self.new) }
    {
        self.out.extend_from_slice(b" \"")?;
        let digits = hex::encode(self.alloc, octets)?;
        self.out.extend_from_slice(digits.as_bytes())?;
        self.out.push(b'"')?;
        Ok(())
    }
}
