//! The laws of category files and of expansion files. Each function stands for what its contract says.

ghost use Rattle.std.specs.Prelude.{◌≡◌, ◌≢◌, ℕ, ◌⊎◌, Bool, List, Some, None};
ghost use Rattle.ax_load.specs.declared.fault.LoadStop.{LoadStop};
ghost use Rattle.ax_load.specs.declared.fault.LoadStop.TheVariants.{OutOfMemory, SpecRefused};
ghost use Rattle.ax_load.specs.declared.fault.SpecFault.{SpecFault};
ghost use Rattle.ax_load.specs.declared.fault.SpecFault.TheVariants.{TooLarge};
ghost use Rattle.ax_expand.specs.Expansion.{ExpansionTree};
ghost use Rattle.ax_load.specs.FileAnswers.{IsAccepted, IsRefused, IsAcceptedIn, IsRefusedIn};
ghost use Rattle.ax_load.specs.Languages.{expansion_files};
ghost use Rattle.ax_endpoints.specs.Changes.{LibraryCounts};
ghost use Rattle.ax_load.specs.Loading.{FilesGive, FilesEnd};
ghost use Rattle.ax_format.specs.Specification.{SpecTree};
ghost use Rattle.ax_laws.specs.Loads.{TakesTooMany};
ghost use Rattle.ax_endpoints.specs.Files.{File};
ghost use Rattle.ax_endpoints.specs.Told.{Rose};

/// A file is accepted with one specification, an accepted file isn't refused, and a refused one has one fault.
pub fn file_accepted_once()
    ensures once { (octets : List ℕ) (spec other : SpecTree) → IsAccepted octets spec → IsAccepted octets other → spec ≡ other }
    ensures never_both { (octets : List ℕ) (spec : SpecTree) (fault : SpecFault) → IsAccepted octets spec → IsRefused octets fault
        → ⊥ }
    ensures fault_once { (octets : List ℕ) (fault other : SpecFault) → IsRefused octets fault → IsRefused octets other
        → fault ≡ other }
{}

/// Any octets are accepted with a specification, or refused with a fault; and as an expansion file with an expansion, or refused.
pub fn file_accepted_or_refused()
    ensures category { (octets : List ℕ) → ((spec : SpecTree) × IsAccepted octets spec) ⊎ ((fault : SpecFault) × IsRefused octets fault) }
    ensures expansion { (octets : List ℕ) → ((x : ExpansionTree) × IsAcceptedIn expansion_files octets x)
        ⊎ ((fault : SpecFault) × IsRefusedIn expansion_files octets fault) }
{}

/// An expansion file is accepted with one expansion, an accepted one isn't refused, and a refused one has one fault.
pub fn expansion_file_accepted_once()
    ensures once { (octets : List ℕ) (x other : ExpansionTree) → IsAcceptedIn expansion_files octets x
        → IsAcceptedIn expansion_files octets other → x ≡ other }
    ensures never_both { (octets : List ℕ) (x : ExpansionTree) (fault : SpecFault) → IsAcceptedIn expansion_files octets x
        → IsRefusedIn expansion_files octets fault → ⊥ }
    ensures fault_once { (octets : List ℕ) (fault other : SpecFault) → IsRefusedIn expansion_files octets fault
        → IsRefusedIn expansion_files octets other → fault ≡ other }
{}

/// Files give one list of specifications, and where they give one only want of memory or a fault of the library stops their loading.
/// Where they give none, their loading ends in one way, apart from these two.
pub fn files_give_once()
    ensures once { (distinct : Bool) (files : List File) (names : List (List ℕ)) (catalogue other : List SpecTree)
        → FilesGive distinct (Some files) names catalogue → FilesGive distinct (Some files) names other → catalogue ≡ other }
    ensures ends { (distinct : Bool) (files : List File) (c : LibraryCounts) (names : List (List ℕ)) (catalogue : List SpecTree) (outcome : LoadStop)
        → (Rose c.faults c.faults' → ⊥)
        → FilesGive distinct (Some files) names catalogue → FilesEnd distinct (Some files) c names outcome
        → outcome ≡ OutOfMemory }
    ensures ends_once { (distinct : Bool) (files : List File) (c : LibraryCounts) (names : List (List ℕ)) (outcome other : LoadStop)
        → (Rose c.faults c.faults' → ⊥) → outcome ≢ OutOfMemory → other ≢ OutOfMemory
        → FilesEnd distinct (Some files) c names outcome → FilesEnd distinct (Some files) c names other → outcome ≡ other }
{}

/// Files of any names give specifications, or loading them ends, and not for want of memory.
pub fn files_give_or_end()
    ensures { (distinct : Bool) (files : List File) (c : LibraryCounts) (names : List (List ℕ)) →
        ((catalogue : List SpecTree) × FilesGive distinct (Some files) names catalogue)
        ⊎ ((outcome : LoadStop) × FilesEnd distinct (Some files) c names outcome × (outcome ≢ OutOfMemory)) }
{}

/// Of a library that doesn't tell its files: where the file of number n is too large, the n loads before it gave accepted files, and
/// the octets that were taken beyond those of these files are more than 1,048,576. So they aren't those of all loads together.
pub fn too_large_by_its_own_load()
    ensures { (distinct : Bool) (c : LibraryCounts) (names : List (List ℕ)) (n : ℕ) → FilesEnd distinct None c names (SpecRefused n TooLarge)
        → TakesTooMany c n }
{}
