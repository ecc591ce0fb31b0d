//! Sets of names.
ghost use Rattle.std.specs.Prelude.{◌≡◌, ◌∷◌, [], IfOk, OnOk};
ghost use Rattle.ax_format.specs.Flaws.{is_among};
ghost use Rattle.ax_check.specs.Names.{listed, AreSame};

use ax_format::Name;
use indexmap::IndexSet;
use std::alloc::{AllocError, Global};

/// Names, each once.
pub(crate) struct Names<'s> {
    set: IndexSet<&'s [u8]>,
}

impl Drop for Names<'_> {
    fn drop(self) {
        let Names { set: _set } = self;
    }
}

impl<'s> Names<'s> {
    /// No name. Takes no memory.
    pub(crate) fn new(alloc: Global) -> Names<'s>
        ensures { listed result.set ≡ [] }
    {
        Names {
            set: IndexSet::new(alloc),
        }
    }
}

/// Adds a name. Ok says whether it was there.
#[tactic(auto, using(crate::proofs::NameSets::sets))]
pub(crate) fn enter<'s>(names: &mut Names<'s>, name: &'s Name) -> Result<bool, AllocError>
    ensures known { IfOk result (λ known. known ≡ is_among name.now (listed names.old.set)) }
    ensures added { OnOk result (AreSame (listed names.new.set) (name.now ∷ listed names.old.set)) }
{
    let (_, new) = names.set.insert_full(name.octets())?;
    Ok(!new)
}

/// Whether the name is there.
#[tactic(auto, using(crate::proofs::NameSets::has_name))]
pub(crate) fn has<'s>(names: &Names<'s>, name: &Name) -> bool
    ensures { result ≡ is_among name.now (listed names.now.set) }
{
    names.set.contains(name.octets())
}
