//! What the numbers of elements mean.
ghost use Rattle.std.specs.Prelude.{◌≡◌, ◌<◌, ◌++◌, ◌^◌, ℕ, OnOk};
ghost use Rattle.ax_held_kinds.specs.HeldFixed.{held_content};
ghost use Rattle.ax_format.specs.Paths.{at as under};
ghost use Rattle.ax_text_form.specs.Listable.{ContentListable};
ghost use Rattle.ax_text_form.specs.Printing.{PutsLines};
ghost use Rattle.ax_text_form.specs.Remarks.{remark};
ghost use Rattle.ax_text_form.specs.ValueText.{one_onto};
ghost use Rattle.ax_listing.specs.Shown.{line_of};

use crate::element::ListedElement;
use ax_format::{Content, Name};
use ax_held_kinds::HeldContent;
use ax_octets::LinePath;
use ax_text_form::{HeldScale, Lister, NamedPlace};
use std::alloc::AllocError;

/// A content that says of this number what the held one says. Of a table of many entries it is that of the number's first entry
/// alone.
#[inline(always)]
#[tactic(auto, using(crate::proofs::TableRemarks::contents))]
fn content_of<'a>(content: &'a HeldContent<'_>, number: u128) -> &'a Content
    ensures remark { (w : ℕ) → remark w result.now number ≡ remark w (held_content content.now) number }
    ensures listable { (w : ℕ) → ContentListable w (held_content content.now) → ContentListable w result.now }
{
    match content {
        HeldContent::Plain(content) => content,
        HeldContent::Table(entries) => entries.content(number),
        HeldContent::Quantity(quantity) => quantity.content,
    }
}

/// The line of an element of this number under a path and its name.
#[inline(always)]
pub(crate) fn put_under(
    lister: &mut Lister,
    number: u64,
    element: ListedElement<'_, '_>,
    path: &LinePath,
    name: &Name,
) -> Result<(), AllocError>
    requires fits { number < 2 ^ element.width }
    ensures { OnOk result (PutsLines (one_onto (line_of element.entry (under path.now name.now) number)) lister.old lister.new) }
{
    let width = element.width;
    let place = NamedPlace { path, name };
    if let HeldContent::Quantity(quantity) = element.content {
        let held = HeldScale {
            scale: quantity.scale,
            ends: quantity.ends.as_slice(),
        };
        return lister.quantity_under(number, width, &held, &place);
    }
    let found = content_of(element.content, u128::from(number));
    lister.element_under(number, width, found, &place)
}

/// The line of an element of this number at a path.
pub(crate) fn put_at(
    lister: &mut Lister,
    number: u128,
    element: ListedElement<'_, '_>,
    path: &LinePath,
) -> Result<(), AllocError>
    requires fits { number < 2 ^ element.width }
    ensures { OnOk result (PutsLines (one_onto (line_of element.entry path.now number)) lister.old lister.new) }
{
    let found = content_of(element.content, number);
    lister.element_at(number, element.width, found, path)
}
