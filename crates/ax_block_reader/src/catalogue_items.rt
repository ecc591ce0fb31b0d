//! The items of the UAPs of a catalogue.
ghost use Rattle.std.specs.Prelude.{◌≡◌, IfOk};

use ax_check::Catalogue;
use ax_uap::{CatalogueItems, UapItems};
use std::alloc::{AllocError, Global};

/// The items of the specifications of the catalogue, in its order.
#[tactic(auto, using(ax_uap::proofs::Categories::collecting))]
pub fn items_of<'c>(
    alloc: Global,
    catalogue: &'c Catalogue,
) -> Result<CatalogueItems<'c>, AllocError>
    ensures { IfOk result (λ made. made ≡ catalogue.now) }
{
    let mut made = CatalogueItems::new(alloc);
    for index in 0..catalogue.count() {
        if let Some(accepted) = catalogue.at(index) {
            made.push(UapItems::of(alloc, accepted.spec())?)?;
        }
    }
    Ok(made)
}
