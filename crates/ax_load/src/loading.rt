//! The category files of a command line, loaded one after another into a catalogue.
ghost use Rattle.std.specs.Prelude.{◌≡◌, ◌+◌, ◌≤◌, ◌<◌, true, false, [], ◌∷◌, length, IsSome, IfOk, IfErr, OnErr};
ghost use Rattle.ax_format.specs.Plain.{spec_tree, catalogue_tree};
ghost use Rattle.ax_load.specs.Adding.{stop_of_adding};
ghost use Rattle.ax_load.specs.Counting.{TookFiles, TookAt, TookThrough, UnlessLoadFault};
ghost use Rattle.ax_endpoints.specs.Changes.{IsUnasked, library_counts};
ghost use Rattle.ax_endpoints.specs.Files.{HoldsFile};
ghost use Rattle.ax_endpoints.specs.Told.{number_after};
ghost use Rattle.ax_load.specs.Languages.{category_files};
ghost use Rattle.ax_load.specs.FileAnswers.{largest_file};
ghost use Rattle.ax_load.specs.Loading.{LoadsIn, HasNoOctets, StopsHere, OneStops, TookUpTo, FilesGive, FilesEnd};

use crate::fault::{LoadStop, SpecFault};
use crate::files::{FileStop, LARGEST_FILE, read_file};
use ax_check::{Accepted, AddError, Catalogue};
use ax_endpoints::{Library, LoadError};
use ax_words::WordText;
use std::alloc::Global;

/// The octets of the file of that name, at most 1,048,576, or how the run ends. The file has that number in the order of the
/// words. It is loaded once: one fault at most is counted, and none but at `LoadFault`.
pub(crate) fn load_octets<L: Library>(
    alloc: Global,
    library: &mut L,
    name: &str,
    file: u32,
) -> Result<Vec<u8>, LoadStop>
    ensures small { IfOk result (λ octets. length octets.items ≤ largest_file) }
    ensures holds { IfOk result (λ octets. HoldsFile (L.files library.old) name.now octets.items) }
    ensures none { IfErr result (λ stop. HasNoOctets (L.files library.old) (library_counts L.Library library.old library.new) name.now file stop) }
    ensures keeps { L.files library.new ≡ L.files library.old }
    ensures number_never_falls { L.taken library.old ≤ L.taken library.new }
    ensures number { IfOk result (λ octets. L.taken library.new ≡ number_after (L.taken library.old) (length octets.items)) }
    ensures number_kept { IsSome (L.files library.old) → OnErr result (L.taken library.new ≡ L.taken library.old) }
    ensures never_falls { L.faults library.old ≤ L.faults library.new }
    ensures once { L.faults library.new ≤ L.faults library.old + 1 }
    ensures quiet { UnlessLoadFault result (L.faults library.new ≡ L.faults library.old) }
{
    match library.load(alloc, name, LARGEST_FILE) {
        Ok(octets) => Ok(octets),
        Err(LoadError::Failed) => Err(LoadStop::LoadFault { file }),
        Err(LoadError::TooLarge) => Err(LoadStop::SpecRefused {
            file,
            fault: SpecFault::TooLarge,
        }),
        Err(LoadError::OutOfMemory) => Err(LoadStop::OutOfMemory),
    }
}

/// The specification of the file of that name, or how the run ends. The file has that number in the order of the words. It is
/// loaded once: one fault at most is counted, and none but at `LoadFault`.
#[tactic(auto, using(crate::proofs::FileOctets::file_ends))]
pub fn load_file<L: Library>(
    alloc: Global,
    library: &mut L,
    name: &str,
    file: u32,
) -> Result<Accepted, LoadStop>
    ensures loads { IfOk result (λ accepted. LoadsIn category_files (L.files library.old) (L.taken library.old) (L.taken library.new) name.now (spec_tree accepted)) }
    ensures stops { IfErr result (λ stop. StopsHere L.Library library.old library.new category_files name.now file stop) }
    ensures keeps { L.files library.new ≡ L.files library.old }
    ensures number_never_falls { L.taken library.old ≤ L.taken library.new }
    ensures took { IfOk result (λ _. TookFiles (L.files library.old) (L.taken library.old) (L.taken library.new) (name.now ∷ [])) }
    ensures took_at_stop { IfErr result (λ stop. TookAt (L.files library.old) (L.taken library.old) (L.taken library.new) name.now stop) }
    ensures never_falls { L.faults library.old ≤ L.faults library.new }
    ensures once { L.faults library.new ≤ L.faults library.old + 1 }
    ensures quiet { UnlessLoadFault result (L.faults library.new ≡ L.faults library.old) }
{
    let octets = match load_octets(alloc, library, name, file) {
        Ok(octets) => octets,
        Err(stop) => return Err(stop),
    };
    match read_file(alloc, &octets) {
        Ok(accepted) => Ok(accepted),
        Err(FileStop::Refused(fault)) => Err(LoadStop::SpecRefused { file, fault }),
        Err(FileStop::OutOfMemory) => Err(LoadStop::OutOfMemory),
    }
}

/// How the run ends where the specification of the file of that number isn't added to the catalogue.
fn adding_stop(error: AddError, file: u32) -> LoadStop
    ensures { result ≡ stop_of_adding file error }
{
    match error {
        AddError::CategoryTwice { category } => LoadStop::CategoryTwice { file, category },
        AddError::OutOfMemory => LoadStop::OutOfMemory,
    }
}

/// The catalogue of the files of these names, or how the run ends at the first one that gives no specification. Each is loaded
/// once, in this order, and none after the first one that ends the run.
pub fn load_catalogue<L: Library>(
    alloc: Global,
    library: &mut L,
    names: &[WordText],
) -> Result<Catalogue, LoadStop>
    requires { length names.now < 4294967296 }
    ensures gives { IfOk result (λ catalogue. FilesGive true (L.files library.old) names.now (catalogue_tree catalogue)) }
    ensures ends { IfErr result (λ outcome. FilesEnd true (L.files library.old) (library_counts L.Library library.old library.new) names.now outcome) }
    ensures keeps { L.files library.new ≡ L.files library.old }
    ensures number_never_falls { L.taken library.old ≤ L.taken library.new }
    ensures took { IfOk result (λ _. TookFiles (L.files library.old) (L.taken library.old) (L.taken library.new) names.now) }
    ensures unasked { IfOk result (λ _. names.now ≡ [] → IsUnasked (library_counts L.Library library.old library.new)) }
    ensures took_through { IfErr result (λ stop. TookThrough (L.files library.old) (L.taken library.old) (L.taken library.new) names.now stop) }
    ensures never_falls { L.faults library.old ≤ L.faults library.new }
    ensures once { L.faults library.new ≤ L.faults library.old + 1 }
    ensures quiet { UnlessLoadFault result (L.faults library.new ≡ L.faults library.old) }
{
    let mut catalogue = Catalogue::new(alloc);
    let mut file: u32 = 0;
    for name in names {
        let one = load_file(alloc, library, name.text(), file)?;
        if let Err(error) = catalogue.add(one) {
            return Err(adding_stop(error, file));
        }
        file += 1;
    }
    Ok(catalogue)
}

/// The specifications of two files, whatever their categories, or how the run ends at the first file that gives none.
#[tactic(auto, using(crate::proofs::TwoFiles::two_files))]
pub fn load_two<L: Library>(
    alloc: Global,
    library: &mut L,
    first: &str,
    second: &str,
) -> Result<(Accepted, Accepted), LoadStop>
    ensures gives { IfOk result (λ both. FilesGive false (L.files library.old) (first.now ∷ second.now ∷ []) (spec_tree both.0 ∷ spec_tree both.1 ∷ [])) }
    ensures ends { IfErr result (λ stop. OneStops L.Library library.old library.new false (first.now ∷ second.now ∷ []) stop) }
    ensures keeps { L.files library.new ≡ L.files library.old }
    ensures number_never_falls { L.taken library.old ≤ L.taken library.new }
    ensures took { IfOk result (λ _. TookFiles (L.files library.old) (L.taken library.old) (L.taken library.new) (first.now ∷ second.now ∷ [])) }
    ensures took_through { IfErr result (λ stop. TookUpTo L.Library library.old library.new (first.now ∷ second.now ∷ []) stop) }
    ensures never_falls { L.faults library.old ≤ L.faults library.new }
    ensures once { L.faults library.new ≤ L.faults library.old + 1 }
    ensures quiet { UnlessLoadFault result (L.faults library.new ≡ L.faults library.old) }
{
    let one = load_file(alloc, library, first, 0)?;
    let other = load_file(alloc, library, second, 1)?;
    Ok((one, other))
}
