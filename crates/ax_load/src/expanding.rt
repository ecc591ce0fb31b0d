//! A category file and an expansion file, loaded one after the other.
ghost use Rattle.std.specs.Prelude.{◌≡◌, ◌+◌, ◌≤◌, false, [], ◌∷◌, IfOk, IfErr};
ghost use Rattle.ax_expand.specs.Expansion.{expansion_tree};
ghost use Rattle.ax_load.specs.Counting.{TookFiles, TookAt, UnlessLoadFault};
ghost use Rattle.ax_load.specs.Languages.{expansion_files};
ghost use Rattle.ax_load.specs.Loading.{GivesIn, StopsHere, FilesGive, EitherStops, TookUpTo};
ghost use Rattle.ax_format.specs.Plain.{spec_tree};

use crate::expansion_files::read_expansion_file;
use crate::fault::LoadStop;
use crate::files::FileStop;
use crate::loading::{load_file, load_octets};
use ax_check::Accepted;
use ax_endpoints::Library;
use ax_expand::AcceptedExpansion;
use std::alloc::Global;

/// The expansion of the file of that name, or how the run ends. The file has that number in the order of the words. It is
/// loaded once: one fault at most is counted, and none but at `LoadFault`.
#[tactic(auto, using(crate::proofs::ExpansionLemmas::file_ends))]
pub fn load_expansion<L: Library>(
    alloc: Global,
    library: &mut L,
    name: &str,
    file: u32,
) -> Result<AcceptedExpansion, LoadStop>
    ensures gives { IfOk result (λ accepted. GivesIn expansion_files (L.files library.old) name.now (expansion_tree accepted)) }
    ensures stops { IfErr result (λ stop. StopsHere L.Library library.old library.new expansion_files name.now file stop) }
    ensures keeps { L.files library.new ≡ L.files library.old }
    ensures number_never_falls { L.taken library.old ≤ L.taken library.new }
    ensures took { IfOk result (λ _. TookFiles (L.files library.old) (L.taken library.old) (L.taken library.new) (name.now ∷ [])) }
    ensures took_at_stop { IfErr result (λ stop. TookAt (L.files library.old) (L.taken library.old) (L.taken library.new) name.now stop) }
    ensures never_falls { L.faults library.old ≤ L.faults library.new }
    ensures once { L.faults library.new ≤ L.faults library.old + 1 }
    ensures quiet { UnlessLoadFault result (L.faults library.new ≡ L.faults library.old) }
{
    let octets = match load_octets(alloc, library, name, file) {
        Ok(octets) => octets,
        Err(stop) => return Err(stop),
    };
    match read_expansion_file(alloc, &octets) {
        Ok(accepted) => Ok(accepted),
        Err(FileStop::Refused(fault)) => Err(LoadStop::SpecRefused { file, fault }),
        Err(FileStop::OutOfMemory) => Err(LoadStop::OutOfMemory),
    }
}

/// The specification of a category file and the expansion of the file after it, whatever their categories, or how the run ends
/// at the first of the two that gives none.
#[tactic(auto, using(crate::proofs::WithExpansion::both_files))]
pub fn load_with_expansion<L: Library>(
    alloc: Global,
    library: &mut L,
    name: &str,
    expansion: &str,
) -> Result<(Accepted, AcceptedExpansion), LoadStop>
    ensures specs { IfOk result (λ both. FilesGive false (L.files library.old) (name.now ∷ []) (spec_tree both.0 ∷ [])) }
    ensures expansion { IfOk result (λ both. GivesIn expansion_files (L.files library.old) expansion.now (expansion_tree both.1)) }
    ensures ends { IfErr result (λ stop. EitherStops L.Library library.old library.new name.now expansion.now stop) }
    ensures keeps { L.files library.new ≡ L.files library.old }
    ensures number_never_falls { L.taken library.old ≤ L.taken library.new }
    ensures took { IfOk result (λ _. TookFiles (L.files library.old) (L.taken library.old) (L.taken library.new) (name.now ∷ expansion.now ∷ [])) }
    ensures took_through { IfErr result (λ stop. TookUpTo L.Library library.old library.new (name.now ∷ expansion.now ∷ []) stop) }
    ensures never_falls { L.faults library.old ≤ L.faults library.new }
    ensures once { L.faults library.new ≤ L.faults library.old + 1 }
    ensures quiet { UnlessLoadFault result (L.faults library.new ≡ L.faults library.old) }
{
    let one = load_file(alloc, library, name, 0)?;
    let other = load_expansion(alloc, library, expansion, 1)?;
    Ok((one, other))
}
