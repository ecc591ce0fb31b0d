//! The files of a command.
ghost use Rattle.std.specs.Prelude.{◌≡◌, ◌≤◌, IfOk, IfErr};
ghost use Rattle.ax_app.specs.Counting.{LoadsEach, LoadsUpTo};
ghost use Rattle.ax_app.specs.Loaded.{named, given_of, AreFew, AreLoadedAs};
ghost use Rattle.ax_app.specs.NamedFiles.{all_names, NamedGive, NamedEnd};
ghost use Rattle.ax_endpoints.specs.Changes.{library_counts};

use ax_check::{Accepted, Catalogue};
use ax_endpoints::Library;
use ax_expand::AcceptedExpansion;
use ax_load::{LoadStop, load_catalogue, load_file, load_two, load_with_expansion};
use ax_words::WordText;
use std::alloc::Global;

/// The files of a command, by their names.
#[derive(Clone, Copy)]
pub(crate) enum NamedFiles<'f> {
    NoFile,
    OneFile(&'f WordText),
    /// Of distinct categories.
    Catalogue(&'f [WordText]),
    /// The old edition and the new one.
    Editions(&'f WordText, &'f WordText),
    /// A category file, and an expansion by which its RE is read.
    WithExpansion(&'f WordText, &'f WordText),
}

/// What the files of a command are loaded into.
pub(crate) enum Loaded {
    Nothing,
    One(Accepted),
    /// Specifications of distinct categories.
    Catalogue(Catalogue),
    /// The old edition and the new one.
    Editions(Accepted, Accepted),
    /// A specification, and an expansion by which its RE is read.
    WithExpansion(Accepted, AcceptedExpansion),
}

// By hand, so that it is one function: derived, the ends of all that a file is loaded into would stand where such a value goes.
impl Drop for Loaded {
    fn drop(self) {
        match self {
            Loaded::Nothing => {}
            Loaded::One(_spec) => {}
            Loaded::Catalogue(_catalogue) => {}
            Loaded::Editions(_old, _new) => {}
            Loaded::WithExpansion(_spec, _expansion) => {}
        }
    }
}

/// What files of these names give, or how the run ends at the first file that gives none. Each file is loaded once, in order, and
/// none after the first one that ends the run.
#[tactic(auto, using(crate::proofs::Loads::loads))]
pub(crate) fn load<L: Library>(
    alloc: Global,
    library: &mut L,
    files: NamedFiles<'_>,
) -> Result<Loaded, LoadStop>
    requires few { AreFew (named files) }
    ensures gives { IfOk result (λ loaded. NamedGive (named files.entry) (L.files library.old) (given_of loaded)) }
    ensures loaded { IfOk result (AreLoadedAs (named files.entry)) }
    ensures ends { IfErr result (NamedEnd (named files.entry) (L.files library.old) (library_counts L.Library library.old library.new)) }
    ensures loads_all { IfOk result (λ _. LoadsEach (all_names (named files.entry)) (L.files library.old) (library_counts L.Library library.old library.new)) }
    ensures loads_through { IfErr result (λ stop. LoadsUpTo (all_names (named files.entry)) (L.files library.old) (library_counts L.Library library.old library.new) stop) }
    ensures keeps { L.files library.new ≡ L.files library.old }
    ensures number_never_falls { L.taken library.old ≤ L.taken library.new }
    ensures never_falls { L.faults library.old ≤ L.faults library.new }
{
    match files {
        NamedFiles::NoFile => Ok(Loaded::Nothing),
        NamedFiles::OneFile(file) => match load_file(alloc, library, file.text(), 0) {
            Ok(spec) => Ok(Loaded::One(spec)),
            Err(stop) => Err(stop),
        },
        NamedFiles::Catalogue(files) => match load_catalogue(alloc, library, files) {
            Ok(catalogue) => Ok(Loaded::Catalogue(catalogue)),
            Err(stop) => Err(stop),
        },
        NamedFiles::Editions(old, new) => {
            match load_two(alloc, library, old.text(), new.text()) {
                Ok((old, new)) => Ok(Loaded::Editions(old, new)),
                Err(stop) => Err(stop),
            }
        }
        NamedFiles::WithExpansion(spec, expansion) => {
            match load_with_expansion(alloc, library, spec.text(), expansion.text()) {
                Ok((spec, expansion)) => Ok(Loaded::WithExpansion(spec, expansion)),
                Err(stop) => Err(stop),
            }
        }
    }
}
