//! Elements, by how many bits they have and what these mean.
ghost use Rattle.ax_format.specs.InBounds.{IsWidth};
ghost use Rattle.ax_held_kinds.specs.HeldFixed.{held_content};
ghost use Rattle.ax_text_form.specs.Listable.{ContentListable};
ghost use Rattle.ax_listing.specs.Elements.{ContentListable-prop};

use ax_held_kinds::HeldContent;

/// An element that is listed: its width in bits, and what its numbers mean.
#[derive(Clone, Copy)]
pub(crate) struct ListedElement<'e, 'c> {
    pub(crate) width: u32,
    pub(crate) content: &'e HeldContent<'c>,
    pub(crate) ghost bounds: { IsWidth width },
    pub(crate) ghost listable: { ContentListable width (held_content content.now) } by { ContentListable-prop width (held_content content.now) },
}
