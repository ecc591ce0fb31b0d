//! Paths made of others.
ghost use Rattle.std.specs.Prelude.{◌≡◌, OnOk};
ghost use Rattle.ax_format.specs.Paths.{at as under};
ghost use Rattle.ax_text_form.specs.ShowText.{occurrence};

use ax_format::Name;
use ax_octets::LinePath;
use std::alloc::AllocError;

/// Makes a path that of a name under another one.
#[inline(always)]
#[tactic(auto, using(crate::proofs::SlotLines::named))]
pub(crate) fn set_named(
    inner: &mut LinePath,
    path: &LinePath,
    name: &Name,
) -> Result<(), AllocError>
    ensures { OnOk result (inner.new ≡ under path.now name.now) }
{
    inner.set_named(path, name.padded(), name.octets().len())
}

/// Makes a path that of an occurrence under another one, numbered from 0.
#[tactic(auto, using(crate::proofs::SlotLines::numbered))]
pub(crate) fn set_numbered(
    inner: &mut LinePath,
    path: &LinePath,
    number: u32,
) -> Result<(), AllocError>
    ensures { OnOk result (inner.new ≡ occurrence path.now number) }
{
    inner.set_numbered(path, number)
}
