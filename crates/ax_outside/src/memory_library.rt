//! A library in memory, for tests and proofs: it tells its files.
ghost use Rattle.std.specs.Prelude.{◌≡◌, ◌+◌, ◌-◌, ◌^◌, ◌<◌, ◌≤◌, ◌↔◌, ◌⊎◌, length, min, Some, None, IsTrue, IsFalse, IfOk, IsErrOf, MatchOption, MatchResult, if◌then◌else◌};
ghost use Rattle.ax_endpoints.specs.Told.{Rose, one_more, number_after};
ghost use Rattle.ax_endpoints.specs.Files.{octets_of, Exceeds};
ghost use Rattle.ax_outside.specs.Memory.{LibraryState, fails_now, files_of, is_listed};
ghost use Rattle.ax_endpoints.specs.declared.libraries.LoadError.TheVariants.{Failed, TooLarge};

use crate::calls::is_listed;
use ax_endpoints::{Library, LoadError};
use std::alloc::Global;
use std::marker::Model;

/// A library of files in memory, whose calls fail as its maker says.
pub struct MemLibrary {
    files: Vec<(String, Vec<u8>)>,
    failing: Vec<u64>,
    call: u64,
    faults: u64,
    taken: u64,
}

impl Drop for MemLibrary {
    fn drop(self) {
        let MemLibrary {
            files: _files,
            failing: _failing,
            call: _call,
            faults: _faults,
            taken: _taken,
        } = self;
    }
}

impl Model for MemLibrary {
    ghost Value = { LibraryState };

    ghost view = { λ s. record {
      files = files_of s.files.items;
      failing = s.failing.items;
      call = s.call;
      faults = s.faults;
      taken = s.taken;
    } };
}

impl MemLibrary {
    /// A library of these files, with nothing taken and no fault counted. It takes no memory.
    ///
    /// Of two files of one name the first counts. A load counts a fault exactly where its number, from 0, is in
    /// `failing`, and it fails exactly there and where the name isn't there. A call number that has reached
    /// 2^64 - 1 stays there.
    pub fn new(files: Vec<(String, Vec<u8>)>, failing: Vec<u64>) -> MemLibrary
        ensures { result ≡ record {
          files = files_of files.items;
          failing = failing.items;
          call = 0;
          faults = 0;
          taken = 0;
        } }
    {
        MemLibrary {
            files,
            failing,
            call: 0,
            faults: 0,
            taken: 0,
        }
    }

    /// How many loads met a fault; 2^64 - 1 where more did.
    pub fn faults(&self) -> u64
        ensures { result ≡ self.now.faults }
    {
        self.faults
    }
}

// The octets of the first file of that name.
fn first_named<'a>(files: &'a [(String, Vec<u8>)], name: &str) -> Option<&'a [u8]>
    ensures { let found = octets_of name.now (files_of files.now) in
        MatchOption result (found ≡ None) (λ octets. found ≡ Some octets.now) }
{
    for (key, octets) in files {
        if key.as_str() == name {
            return Some(octets);
        }
    }
    None
}

// The octets of the first file of that name, where the load isn't one that fails.
fn load_from(
    alloc: Global,
    files: &[(String, Vec<u8>)],
    fails: bool,
    name: &str,
    limit: u32,
) -> Result<Vec<u8>, LoadError>
    ensures loaded { IfOk result (λ v. octets_of name.now (files_of files.now) ≡ Some v.items) }
    ensures limited { IfOk result (λ v. length v.items ≤ limit) }
    ensures failed { IsErrOf result Failed ↔ (IsTrue fails ⊎ (octets_of name.now (files_of files.now) ≡ None)) }
    ensures too_large { IsErrOf result TooLarge ↔ (IsFalse fails × Exceeds (octets_of name.now (files_of files.now)) limit) }
{
    if fails {
        return Err(LoadError::Failed);
    }
    let Some(octets) = first_named(files, name) else {
        return Err(LoadError::Failed);
    };
    if octets.len() > limit as usize {
        return Err(LoadError::TooLarge);
    }
    Ok(octets.to_vec(alloc)?)
}

impl Library for MemLibrary {
    ghost files = { λ s. Some s.files };

    ghost faults = { λ s. s.faults };

    ghost taken = { λ s. s.taken };

    fn load(&mut self, alloc: Global, name: &str, limit: u32) -> Result<Vec<u8>, LoadError>
        ensures loaded { IfOk result (λ v. octets_of name.now self.old.files ≡ Some v.items) }
        ensures limited { IfOk result (λ v. length v.items ≤ limit) }
        ensures failed { IsErrOf result Failed ↔ (IsTrue (fails_now self.old) ⊎ (octets_of name.now self.old.files ≡ None)) }
        ensures too_large { IsErrOf result TooLarge ↔ (IsFalse (fails_now self.old) × Exceeds (octets_of name.now self.old.files) limit) }
        ensures counts { self.new.faults ≡ (if fails_now self.old then one_more self.old.faults else self.old.faults) }
        ensures number { MatchResult result (λ v. self.new.taken ≡ number_after self.old.taken (length v.items)) (λ _. self.new.taken ≡ self.old.taken) }
        ensures next_call { self.new.call ≡ one_more self.old.call }
        ensures same_files { self.new.files ≡ self.old.files }
        ensures same_failing { self.new.failing ≡ self.old.failing }
        ensures rose { IsTrue (fails_now self.old) → Rose self.old.faults self.new.faults }
        ensures never_falls { self.old.faults ≤ self.new.faults }
        ensures once { self.new.faults ≤ self.old.faults + 1 }
        ensures quiet { IsErrOf result Failed ⊎ (self.new.faults ≡ self.old.faults) }
        ensures number_never_falls { self.old.taken ≤ self.new.taken }
    {
        let call = self.call;
        self.call = call.saturating_add(1);
        let fails = is_listed(&self.failing, call);
        if fails {
            self.faults = self.faults.saturating_add(1);
        }
        let octets = load_from(alloc, &self.files, fails, name, limit)?;
        self.taken = self.taken.saturating_add(octets.len() as u64);
        Ok(octets)
    }
}
