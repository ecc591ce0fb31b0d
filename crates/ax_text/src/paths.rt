//! Paths made of others, and the lines of counts.
ghost use Rattle.std.specs.Prelude.{◌≡◌, IfOk, OnOk};
ghost use Rattle.ax_format.specs.Paths.{at};
ghost use Rattle.ax_text_form.specs.Printing.{PutsLines};
ghost use Rattle.ax_text_form.specs.ShowText.{count_line, occurrence};
ghost use Rattle.ax_text_form.specs.ValueText.{one_onto};

use ax_format::Name;
use ax_octets::LinePath;
use ax_text_form::Lister;
use std::alloc::AllocError;

/// The path of a name under another path.
#[tactic(auto, using(crate::proofs::LinePaths::named))]
pub(crate) fn path_under(
    lister: &Lister,
    above: &LinePath,
    name: &Name,
) -> Result<LinePath, AllocError>
    ensures { IfOk result (λ made. made ≡ at above.now name.now) }
{
    let mut made = lister.blank_path();
    made.set_named(above, name.padded(), name.octets().len())?;
    Ok(made)
}

/// The path of an occurrence, numbered from 0, under another path.
#[tactic(auto, using(crate::proofs::LinePaths::numbered))]
pub(crate) fn path_of_occurrence(
    lister: &Lister,
    above: &LinePath,
    number: u32,
) -> Result<LinePath, AllocError>
    ensures { IfOk result (λ made. made ≡ occurrence above.now number) }
{
    let mut made = lister.blank_path();
    made.set_numbered(above, number)?;
    Ok(made)
}

/// The line that says how many there are of something, at a path.
pub(crate) fn list_count(
    lister: &mut Lister,
    word: &[u8],
    count: u32,
    path: &LinePath,
) -> Result<(), AllocError>
    ensures { OnOk result (PutsLines (one_onto (count_line path.now word.now count)) lister.old lister.new) }
{
    lister.none_of(word, path)?;
    let end = lister.len();
    lister.set_count(end, count)
}
