//! What is held of each specification of a catalogue, by category.
ghost use Rattle.std.specs.Prelude.{◌≡◌, ◌∷◌, ◌++◌, [], option_map, replicate, slice_get, IfSome, OnOk};
ghost use Rattle.std.specs.Option.{option_copied};
ghost use Rattle.ax_format.specs.OfCode.{HasNoFlaw};
ghost use Rattle.ax_format.specs.Plain.{spec_tree, catalogue_tree};
ghost use Rattle.ax_format.specs.Specification.{spec_of};
ghost use Rattle.ax_format.specs.declared.spec.Spec.{Spec};

use crate::items::UapItems;
use ax_format::Spec;
use std::alloc::{AllocError, Global};
use std::marker::Model;

/// What is made of a specification, and leads back to it.
pub trait OfSpec: Drop {
    // The specification.
    ghost of: { Self → Spec };

    /// The specification.
    fn spec(&self) -> &Spec
        ensures { result.now ≡ of self.now };
}

impl<'s> OfSpec for UapItems<'s> {
    ghost of = { λ items. items.spec.now };

    fn spec(&self) -> &Spec {
        self.spec()
    }
}

/// What is held of specifications without flaw, one after another. Contracts see it as the list of the specifications; the
/// place of each category's stands beside it, so that it is found without a search.
#[derive(Drop)]
pub struct ByCategory<T: OfSpec> {
    each: Vec<T>,
    /// By category: the place of what is held of its first specification, from 1; 0 where there is none.
    places: [usize; 256],
}

/// The items of the UAPs of specifications: of each specification they are looked up once, when this is made.
pub type CatalogueItems<'c> = ByCategory<UapItems<'c>>;

impl<T: OfSpec> Model for ByCategory<T> {
    ghost use Rattle.std.specs.Prelude.{List, map};
    ghost use Rattle.std.specs.List.{AllByRecursion};
    ghost use Rattle.std.specs.Coded.{coded_list};
    ghost use Rattle.ax_format.specs.OfCode.{HasNoFlaw};
    ghost use Rattle.ax_format.specs.contracts.spec.Spec as row;
    ghost use Rattle.ax_format.specs.declared.spec.Spec.{Spec};
    ghost use Rattle.ax_uap.specs.Categories.{ArePlaces};

    ghost Value = { List Spec };

    ghost coded = { coded_list row.the_row.coded };

    ghost view = { λ c. map (λ one. T.of one) c.each.items };

    ghost invariant = { λ c. AllByRecursion HasNoFlaw (map (λ one. T.of one) c.each.items) × ArePlaces (map (λ one. T.of one) c.each.items) 256 c.places };
}

/// No category has a place.
fn no_places() -> [usize; 256]
    ensures { result ≡ replicate 256 0 }
{
    [0; 256]
}

/// What is held at that index, from 0. None comes exactly past the end.
fn held_at<T: OfSpec>(each: &[T], index: usize) -> Option<&T>
    ensures { option_copied result ≡ slice_get each.now index }
{
    each.get(index)
}

impl<T: OfSpec> ByCategory<T> {
    /// Nothing is held. Takes no memory.
    pub fn new(alloc: Global) -> ByCategory<T>
        ensures { result ≡ [] }
    {
        ByCategory {
            each: Vec::new(alloc),
            places: no_places(),
        }
    }

    /// Adds what is made of one more specification, after the others. Err is want of memory.
    #[tactic(auto, using(crate::proofs::Categories::adding))]
    pub fn push(&mut self, one: T) -> Result<(), AllocError>
        requires { HasNoFlaw (T.of one) }
        ensures { OnOk result (self.new ≡ self.old ++ T.of one ∷ []) }
    {
        let category = one.spec().category as usize;
        self.each.push(one)?;
        if self.places[category] == 0 {
            self.places[category] = self.each.len();
        }
        Ok(())
    }

    /// What is held of the specification of that category. None comes exactly where there is none.
    pub fn get(&self, category: u8) -> Option<&T>
        ensures spec { option_map (λ one. spec_tree (T.of one)) (option_copied result) ≡ spec_of category (catalogue_tree self.now) }
        ensures no_flaw { IfSome result (λ one. HasNoFlaw (T.of one.now)) }
    {
        let place = self.places[category as usize];
        if place == 0 {
            return None;
        }
        held_at(&self.each, place - 1)
    }

    /// The first specification. None comes exactly where there is none.
    pub fn first(&self) -> Option<&Spec>
        ensures { option_copied result ≡ slice_get self.now 0 }
    {
        match self.each.first() {
            None => None,
            Some(first) => Some(first.spec()),
        }
    }
}
