ghost use Rattle.std.specs.Prelude.{◌≡◌, ◌∷◌, ◌++◌, [], ◌<◌, ◌↔◌, None, Some, length, map, nat_eq, slice_get, option_map, OnOk, OnErr, IfErr, IsSome, MatchOption};
ghost use Rattle.std.specs.List.{IsDistinct};
ghost use Rattle.std.specs.Option.{option_copied};
ghost use Rattle.ax_lists.specs.Sizes.{list_bound};
ghost use Rattle.ax_format.specs.Plain.{spec_tree, catalogue_tree};
ghost use Rattle.ax_format.specs.Specification.{spec_of};
ghost use Rattle.ax_check.specs.Adding.{WhyRefused};
ghost use Rattle.indexmap.specs.IndexMap.{insert_entry};

use crate::accepted::Accepted;
use indexmap::IndexMap;
use std::alloc::{AllocError, Global};
use std::marker::Model;
use thiserror::Error;

// The most members of a list. There are 256 categories, so a catalogue never has as many.
const MOST: usize = 4_294_967_295;

/// Accepted specifications, at most one for each category, in the order of insertion. Contracts see them as that
/// list.
pub struct Catalogue {
    specs: IndexMap<u8, Accepted>,
}

impl Drop for Catalogue {
    fn drop(self) {
        let Catalogue { specs: _specs } = self;
    }
}

impl Model for Catalogue {
    ghost use Rattle.std.specs.Prelude.{List, map, length, ◌≡◌, ◌<◌};
    ghost use Rattle.std.specs.List.{AllByRecursion};
    ghost use Rattle.std.specs.Coded.{coded_list};
    ghost use Rattle.ax_format.specs.contracts.spec.Spec as row;
    ghost use Rattle.ax_format.specs.declared.spec.Spec.{Spec};
    ghost use Rattle.ax_lists.specs.Sizes.{list_bound};

    ghost Value = { List Spec };

    ghost coded = { coded_list row.the_row.coded };

    ghost view = { λ c. map (λ e. e.1) c.specs.entries };

    ghost invariant = { λ c. AllByRecursion (λ e. e.0 ≡ e.1.category) c.specs.entries × (length c.specs.entries < list_bound) };
}

/// Enters a specification under its category.
fn enter(specs: &mut IndexMap<u8, Accepted>, one: Accepted) -> Result<(), AllocError>
    ensures ok { OnOk result (specs.new.entries ≡ insert_entry nat_eq specs.old.entries one.category one) }
    ensures err { OnErr result (specs.new.entries ≡ specs.old.entries) }
{
    let category = one.spec().category;
    specs.insert(category, one)?;
    Ok(())
}

impl Catalogue {
    /// The empty catalogue. Takes no memory.
    pub fn new(alloc: Global) -> Catalogue
        ensures { result ≡ [] }
    {
        Catalogue {
            specs: IndexMap::new(alloc),
        }
    }

    /// Refuses a specification that isn't to be added. CategoryTwice comes exactly where its category is there.
    fn admit(&self, one: &Accepted) -> Result<(), AddError>
        ensures new_category { OnOk result (spec_of one.now.category (catalogue_tree self.now) ≡ None) }
        ensures room { OnOk result (length self.now < 4294967295) }
        ensures twice { IfErr result (WhyRefused self.now one.now) }
    {
        let category = one.spec().category;
        if self.specs.contains_key(&category) {
            return Err(AddError::CategoryTwice { category });
        }
        if self.specs.len() >= MOST {
            return Err(AddError::OutOfMemory);
        }
        Ok(())
    }

    /// Adds a specification after the others. CategoryTwice comes exactly where its category is there. A refusal
    /// leaves the catalogue as it was.
    pub fn add(&mut self, one: Accepted) -> Result<(), AddError>
        ensures ok { OnOk result (self.new ≡ self.old ++ one ∷ []) }
        ensures new_category { OnOk result (spec_of one.category (catalogue_tree self.old) ≡ None) }
        ensures err { OnErr result (self.new ≡ self.old) }
        ensures twice { IfErr result (WhyRefused self.old one) }
    {
        self.admit(&one)?;
        let Ok(()) = enter(&mut self.specs, one) else {
            return Err(AddError::OutOfMemory);
        };
        Ok(())
    }

    /// The specification of that category. None comes exactly where there is none.
    #[tactic(auto, using(crate::proofs::Catalogues::looked_up))]
    pub fn get(&self, category: u8) -> Option<&Accepted>
        ensures { option_map spec_tree (option_copied result) ≡ spec_of category (catalogue_tree self.now) }
    {
        self.specs.get(&category)
    }

    /// The number of specifications. Their categories differ.
    pub fn count(&self) -> u32
        ensures number { result ≡ length self.now }
        ensures apart { IsDistinct nat_eq (map (λ spec. spec.category) self.now) }
    {
        self.specs.len() as u32
    }

    /// The specification at that place of the order, from 0. None comes exactly past the end.
    #[tactic(auto, using(crate::proofs::Catalogues::placed))]
    pub fn at(&self, index: u32) -> Option<&Accepted>
        ensures value { option_copied result ≡ slice_get self.now index }
        ensures within { IsSome result ↔ index < length self.now }
    {
        let (_, one) = self.specs.get_index(index as usize)?;
        Some(one)
    }
}

/// Why a specification isn't added to a catalogue.
#[derive(Debug, Drop, Error)]
pub enum AddError {
    #[error("the catalogue has category {category}")]
    CategoryTwice { category: u8 },
    #[error("out of memory")]
    OutOfMemory,
}
