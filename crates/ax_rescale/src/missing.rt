//! What a record's conversion misses.
ghost use Rattle.std.specs.Prelude.{◌≡◌, ◌++◌, ◌∷◌, [], length, OnOk};
ghost use Rattle.ax_format.specs.Plain.{entries_tree, value_tree};
ghost use Rattle.ax_rescale.specs.Under.{IsWatching, misses_of};
ghost use Rattle.ax_rescale.specs.Watching.{stands, watch_miss, watch_missed};

use crate::converter::Converter;
use crate::miss::Miss;
use crate::watches::Watch;
use ax_format::{Entries, Place, Value};
use ax_lists::Sequence;
use ax_relation::{has_part, is_there, value_standing};
use std::alloc::{AllocError, Global};

/// Misses, by record and, in a record, by ascending field reference number, a compound before its subitems, an extended item
/// before its parts.
pub type Misses = Sequence<Miss>;

/// Whether a converted value stands there.
fn stands(target: &Option<Place>, made: &Entries) -> bool
    ensures { result ≡ stands target.now (entries_tree made.now) }
{
    match target {
        Some(place) => is_there(made, place, None),
        None => false,
    }
}

/// Whether a key, at whose place this value stands, is present and missed.
fn is_missed(one: &Watch<'_>, value: &Value, made: &Entries) -> bool
    ensures { result ≡ watch_missed one.now (value_tree value.now) (entries_tree made.now) }
{
    one.path.new.is_none() && has_part(value, one.path.part) && !stands(&one.target, made)
}

/// Appends the miss of a key. A list of more than 2^32 - 1 misses is a want of memory.
fn push_miss(
    alloc: Global,
    misses: &mut Misses,
    number: u32,
    one: &Watch<'_>,
) -> Result<(), AllocError>
    ensures { OnOk result (misses.new ≡ misses.old ++ watch_miss number one.now ∷ []) }
{
    let path = one.path.text.copy(alloc)?;
    if misses.count() == u32::MAX {
        return Err(AllocError);
    }
    misses.push(Miss {
        record_at: number,
        path,
        unconverted: one.target.is_some(),
    })
}

/// A record that was converted: its number in its block, its entries, and those that were made of them.
#[derive(Clone, Copy)]
pub(crate) struct ConvertedRecord<'e> {
    pub(crate) number: u32,
    pub(crate) entries: &'e Entries,
    pub(crate) made: &'e Entries,
}

/// Appends what the conversion of a record misses.
pub(crate) fn miss_record(
    alloc: Global,
    converter: &Converter<'_>,
    misses: &mut Misses,
    one: ConvertedRecord<'_>,
) -> Result<(), AllocError>
    requires watched { IsWatching converter.now }
    requires all { length converter.now.watches ≡ length converter.now.relation.now.paths }
    ensures { OnOk result (misses.new ≡ misses.old ++ misses_of converter.now one.entry) }
{
    let watches = converter.watches.as_slice();
    let mut at: usize = 0;
    while at < watches.len() {
        let watch = &watches[at];
        at += 1;
        match value_standing(one.entries, &watch.path.old) {
            Some(value) => {
                if is_missed(watch, value, one.made) {
                    push_miss(alloc, misses, one.number, watch)?;
                }
            }
            // Nothing stands below either.
            None => at += watch.skip as usize,
        }
    }
    Ok(())
}
