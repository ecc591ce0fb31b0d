ghost use Rattle.std.specs.Prelude.{◌≡◌, ◌∷◌, [], ◌++◌, ◌<◌, ◌↔◌, length, slice_get, IsSome, IfOk, OnOk, OnErr};
ghost use Rattle.std.specs.Option.{option_copied};
ghost use Rattle.std.specs.List.{AllByRecursion};
ghost use Rattle.ax_lists.specs.Sizes.{list_bound};
ghost use Rattle.ax_format.specs.Characters.{IsTextOctet};

use std::alloc::{AllocError, Global};
use std::marker::Model;

/// A text: octets 0x20 to 0x7E without the double quote, fewer than 2^32 of them. Contracts see it as the
/// list of its octets.
pub struct Text {
    octets: Vec<u8>,
}

impl Drop for Text {
    fn drop(self) {
        let Text { octets: _octets } = self;
    }
}

impl Model for Text {
    ghost use Rattle.std.specs.Prelude.{List, ℕ, length, ◌<◌};
    ghost use Rattle.std.specs.List.{AllByRecursion};
    ghost use Rattle.ax_format.specs.Characters.{IsTextOctet};
    ghost use Rattle.ax_lists.specs.Sizes.{list_bound};

    ghost Value = { List ℕ };

    ghost view = { λ t. t.octets.items };

    ghost invariant = { λ t. (length t.octets.items < list_bound) × AllByRecursion IsTextOctet t.octets.items };
}

impl Text {
    /// The empty text. Takes no memory.
    pub fn new(alloc: Global) -> Self
        ensures { result ≡ [] }
    {
        Text {
            octets: Vec::new(alloc),
        }
    }

    /// Appends one octet. Want of memory leaves the text as it was.
    pub fn push(&mut self, one: u8) -> Result<(), AllocError>
        requires room { length self.old < 4294967295 }
        requires printable { IsTextOctet one }
        ensures ok { OnOk result (self.new ≡ self.old ++ one ∷ []) }
        ensures err { OnErr result (self.new ≡ self.old) }
    {
        self.octets.push(one)?;
        Ok(())
    }

    /// A text of the same octets. Takes their room once.
    pub fn copy(&self, alloc: Global) -> Result<Text, AllocError>
        ensures { IfOk result (λ made. made ≡ self.now) }
    {
        let octets = Vec::from_slice(alloc, self.octets.as_slice())?;
        Ok(Text { octets })
    }

    /// The number of octets.
    pub fn count(&self) -> u32
        ensures { result ≡ length self.now }
    {
        self.octets.len() as u32
    }

    /// The octet at that place, counted from 0. None comes exactly past the end.
    pub fn get(&self, index: u32) -> Option<&u8>
        ensures value { option_copied result ≡ slice_get self.now index }
        ensures within { IsSome result ↔ index < length self.now }
    {
        self.octets.get(index as usize)
    }

    /// The octets in order.
    pub fn as_slice(&self) -> &[u8]
        ensures octets { result.now ≡ self.now }
        ensures bound { length self.now < list_bound }
        ensures printable { AllByRecursion IsTextOctet self.now }
    {
        self.octets.as_slice()
    }
}
