//! The memory in which listings are made.
ghost use Rattle.std.specs.Prelude.{◌≡◌, length};
ghost use Rattle.ax_format.specs.Sizes.{longest_block};

use ax_text_form::Lister;

/// What listings are made in, one after the other: the lines, and room for the canonical octets of the longest block, whose
/// number a listing tells.
pub(crate) struct ListingRoom {
    pub(crate) lister: Lister,
    pub(crate) output: Vec<u8>,
    pub(crate) ghost longest: { length output.items ≡ longest_block },
}

impl Drop for ListingRoom {
    fn drop(self) {
        let ListingRoom {
            lister: _lister,
            output: _output,
        } = self;
    }
}
