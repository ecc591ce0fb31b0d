//! The codecs of a catalogue.
ghost use Rattle.std.specs.Prelude.{◌≡◌, ◌++◌, length, map, nat_eq, take, IfOk};
ghost use Rattle.std.specs.List.{IsDistinct, IsDistinct-prop};
ghost use Rattle.std.specs.Option.{option_copied};
ghost use Rattle.ax_format.specs.Plain.{catalogue_tree};
ghost use Rattle.ax_tables.specs.Places.{place_from, ArePlaces, ArePlaces-prop};
ghost use Rattle.ax_codec.specs.Standing.{StandForEach, codec_of};

use crate::compiling::compile;
use ax_check::Catalogue;
use ax_codec::Codec;
use ax_lists::Sequence;
use std::alloc::{AllocError, Global};

/// Codecs, in order.
pub type CodecList = Sequence<Codec>;

/// The categories: 0 to 255.
const CATEGORIES: u32 = 256;

/// The place of the first codec of a category, from 1; 0 where there is none.
fn place_of(codecs: &CodecList, category: u32) -> u32
    ensures { result ≡ place_from 1 category codecs.now }
{
    let list = codecs.as_slice();
    for index in 0..codecs.count() {
        if list[index as usize].category as u32 == category {
            return index + 1;
        }
    }
    0
}

/// The places of the codecs of all categories.
fn places_of(alloc: Global, codecs: &CodecList) -> Result<Vec<u32>, AllocError>
    ensures { IfOk result (λ made. ArePlaces codecs.now 256 made.items) }
{
    let mut places = Vec::new(alloc);
    for category in 0..CATEGORIES {
        places.push(place_of(codecs, category))?;
    }
    Ok(places)
}

/// Codecs of categories that differ from each other, each found by its category without a search.
pub struct Codecs {
    pub codecs: CodecList,
    /// By category: the place of its codec, from 1; 0 where there is none.
    places: Vec<u32>,
    ghost apart: { IsDistinct nat_eq (map (λ codec. codec.category) codecs) } by { IsDistinct-prop nat_eq (map (λ codec. codec.category) codecs) },
    ghost placed: { ArePlaces codecs 256 places.items } by { ArePlaces-prop codecs 256 places.items },
}

impl Drop for Codecs {
    fn drop(self) {
        let Codecs {
            codecs: _codecs,
            places: _places,
        } = self;
    }
}

impl Codecs {
    /// A codec for each specification of the catalogue and for no other, in the catalogue's order.
    pub fn compile(alloc: Global, catalogue: &Catalogue) -> Result<Codecs, AllocError>
        ensures { IfOk result (λ made. StandForEach made.codecs (catalogue_tree catalogue.now)) }
    {
        let mut codecs = CodecList::new(alloc);
        for index in 0..catalogue.count() {
            if let Some(accepted) = catalogue.at(index) {
                codecs.push(compile(alloc, accepted)?)?;
            }
        }
        let places = places_of(alloc, &codecs)?;
        Ok(Codecs { codecs, places })
    }

    /// The codec of that category. None comes exactly where there is none.
    pub fn get(&self, category: u8) -> Option<&Codec>
        ensures { option_copied result ≡ codec_of category self.now.codecs }
    {
        let place = self.places[category as usize];
        if place == 0 {
            return None;
        }
        self.codecs.get(place - 1)
    }
}
