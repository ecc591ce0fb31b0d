//! What files are loaded from.
ghost use Rattle.std.specs.Prelude.{◌≡◌, ℕ, ◌+◌, ◌≤◌, ◌⊎◌, List, Option, length, IfOk, OnErr, IsErrOf, IsSome};
ghost use Rattle.ax_endpoints.specs.Told.{Rose, number_after};
ghost use Rattle.ax_endpoints.specs.Files.{File, HoldsFile, Lacks, IsLonger, TooMany};
ghost use Rattle.ax_endpoints.specs.declared.libraries.LoadError.TheVariants.{Failed, TooLarge, OutOfMemory};

use std::alloc::{AllocError, Global};

/// Why a file isn't loaded.
#[derive(Clone, Copy, Debug, PartialEq, Eq)]
pub enum LoadError {
    /// The library met a fault, or has no file of that name.
    Failed,
    /// The file has more octets than the limit.
    TooLarge,
    /// Memory was wanted.
    OutOfMemory,
}

impl From<AllocError> for LoadError {
    ghost from_gives = { λ _ e. e ≡ OutOfMemory };

    fn from(_: AllocError) -> Self {
        LoadError::OutOfMemory
    }
}

/// A library of files by name.
pub trait Library {
    // The files, where the library tells them.
    ghost files: { Self → Option (List File) };

    // The count of faults.
    ghost faults: { Self → ℕ };

    // The number of octets taken.
    ghost taken: { Self → ℕ };

    /// The octets of the file of that name, at most `limit` of them.
    ///
    /// `Failed` is counted as a fault, unless a library that tells its files lacks the name. `TooLarge` is no fault.
    /// A load leaves the files as they were. It counts one fault at most, and none but at `Failed`; the number of octets taken
    /// rises by those that it gives, up to 2^64 - 1, and of a library that tells its files by no others.
    fn load(&mut self, alloc: Global, name: &str, limit: u32) -> Result<Vec<u8>, LoadError>
        ensures limited { IfOk result (λ v. length v.items ≤ limit) }
        ensures loaded { IfOk result (λ v. HoldsFile (files self.old) name.now v.items) }
        ensures failed { IsErrOf result Failed → Rose (faults self.old) (faults self.new) ⊎ Lacks (files self.old) name.now }
        ensures too_large { IsErrOf result TooLarge → TooMany (files self.old) name.now limit (taken self.old) (taken self.new) }
        ensures too_large_uncounted { IsErrOf result TooLarge → IsSome (files self.old) → faults self.new ≡ faults self.old }
        ensures longer { IsLonger (files self.old) name.now limit → ¬ (Rose (faults self.old) (faults self.new))
            → IsErrOf result TooLarge ⊎ IsErrOf result OutOfMemory }
        ensures keeps { files self.new ≡ files self.old }
        ensures number_never_falls { taken self.old ≤ taken self.new }
        ensures number { IfOk result (λ v. taken self.new ≡ number_after (taken self.old) (length v.items)) }
        ensures number_kept { IsSome (files self.old) → OnErr result (taken self.new ≡ taken self.old) }
        ensures never_falls { faults self.old ≤ faults self.new }
        ensures once { faults self.new ≤ faults self.old + 1 }
        ensures quiet { IsErrOf result Failed ⊎ (faults self.new ≡ faults self.old) };
}
