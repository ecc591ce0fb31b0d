//! Converted blocks.
ghost use Rattle.std.specs.Prelude.{◌≡◌, ◌++◌, length, IfOk, OnOk, map};
ghost use Rattle.std.specs.List.{AllByRecursion};
ghost use Rattle.ax_format.specs.Bodies.{RecordShape};
ghost use Rattle.ax_format.specs.OfCode.{BlockFits};
ghost use Rattle.ax_format.specs.Plain.{spec_tree, record_tree, records_tree};
ghost use Rattle.ax_relation.specs.Relates.{Relates};
ghost use Rattle.ax_rescale.specs.Converting.{BlockConverted, IsConverter, converted_records, misses_of};
ghost use Rattle.ax_rescale.specs.Mappings.{record_mappings};
ghost use Rattle.ax_rescale.specs.PlainMappings.{mapping_tree};
ghost use Rattle.ax_rescale.specs.Under.{all_misses_under, conversion_misses, converted_under};
ghost use Rattle.ax_rescale.specs.Watching.{AreWatched};

use crate::mappings::{SlotMappings, mappings_of_items};
use crate::missing::{ConvertedRecord, Misses, miss_record};
use crate::passing::passed_entries;
use crate::watches::{Watches, watch_all};
use ax_edition::{Relation, index_items, slot_items};
use ax_format::{Block, Record, Records, Spec};
use std::alloc::{AllocError, Global};

/// A block in the new edition, and what its conversion missed.
#[derive(Drop)]
pub struct ConvertedBlock {
    pub block: Block,
    pub misses: Misses,
}

/// Conversion from one edition to another. What it needs of the two is found once, before the first block.
pub struct Converter<'x> {
    /// The edition that blocks are of.
    pub(crate) old: &'x Spec,
    /// The edition that they are converted to.
    pub(crate) new: &'x Spec,
    pub(crate) relation: &'x Relation,
    pub(crate) mappings: SlotMappings<'x>,
    pub(crate) watches: Watches<'x>,
}

impl Drop for Converter<'_> {
    fn drop(self) {
        let Converter {
            old: _old,
            new: _new,
            relation: _relation,
            mappings: _mappings,
            watches: _watches,
        } = self;
    }
}

/// The mappings from the slots of the one edition to those of the other.
#[tactic(auto, using(crate::proofs::Converters::mappings))]
pub(crate) fn mappings_between<'x>(
    alloc: Global,
    old: &'x Spec,
    new: &'x Spec,
) -> Result<SlotMappings<'x>, AllocError>
    ensures { IfOk result (λ mappings. map mapping_tree mappings ≡ record_mappings (spec_tree old.now) (spec_tree new.now)) }
{
    let old_items = slot_items(alloc, old)?;
    let new_items = slot_items(alloc, new)?;
    let index = index_items(alloc, &old_items)?;
    mappings_of_items(alloc, &new_items, &index)
}

/// The keys of the relation of the two, as they are looked for.
fn watches_between<'x>(
    alloc: Global,
    relation: &'x Relation,
    old: &Spec,
    new: &Spec,
) -> Result<Watches<'x>, AllocError>
    ensures watched { IfOk result (λ made. AreWatched (spec_tree old.now) (spec_tree new.now) made relation.now.paths) }
    ensures all { IfOk result (λ made. length made ≡ length relation.now.paths) }
{
    let old_items = slot_items(alloc, old)?;
    let new_items = slot_items(alloc, new)?;
    let index = index_items(alloc, &new_items)?;
    watch_all(alloc, relation.paths(), &old_items, &index)
}

impl<'x> Converter<'x> {
    /// The conversion from the old edition to the new one, whose relation this is. Err is want of memory.
    pub fn new(
        alloc: Global,
        relation: &'x Relation,
        old: &'x Spec,
        new: &'x Spec,
    ) -> Result<Converter<'x>, AllocError>
        requires related { Relates old.now new.now relation.now }
        ensures is { IfOk result IsConverter }
        ensures old { IfOk result (λ c. c.old.now ≡ old.now) }
        ensures new { IfOk result (λ c. c.new.now ≡ new.now) }
    {
        let mappings = mappings_between(alloc, old, new)?;
        let watches = watches_between(alloc, relation, old, new)?;
        Ok(Converter {
            old,
            new,
            relation,
            mappings,
            watches,
        })
    }

    /// The edition that blocks are of.
    pub fn old_edition(&self) -> &'x Spec
        ensures { result.now ≡ self.now.old.now }
    {
        self.old
    }

    /// The edition that they are converted to.
    pub fn new_edition(&self) -> &'x Spec
        ensures { result.now ≡ self.now.new.now }
    {
        self.new
    }

    /// The record in the new edition; what it misses is appended, under that number.
    #[tactic(auto, using(crate::proofs::Converters::records))]
    fn convert_record(
        &self,
        alloc: Global,
        one: &Record,
        number: u32,
        misses: &mut Misses,
    ) -> Result<Record, AllocError>
        requires is { IsConverter self.now }
        requires shape { RecordShape (spec_tree self.now.old.now) (record_tree one.now) }
        ensures made { IfOk result (λ made. record_tree made ≡ converted_under self.now (record_tree one.now)) }
        ensures misses { OnOk result (misses.new ≡ misses.old ++ conversion_misses self.now number (record_tree one.now)) }
    {
        let entries = passed_entries(alloc, &self.mappings, &one.entries)?;
        let converted = ConvertedRecord {
            number,
            entries: &one.entries,
            made: &entries,
        };
        miss_record(alloc, self, misses, converted)?;
        Ok(Record { entries })
    }

    /// The records in the new edition; what they miss is appended. They are numbered from 0.
    fn convert_records(
        &self,
        alloc: Global,
        records: &Records,
        misses: &mut Misses,
    ) -> Result<Records, AllocError>
        requires is { IsConverter self.now }
        requires shapes { AllByRecursion (RecordShape (spec_tree self.now.old.now)) (records_tree records.now) }
        ensures made { IfOk result (λ made. records_tree made ≡ converted_records self.now.old.now self.now.new.now (records_tree records.now)) }
        ensures misses { OnOk result (misses.new ≡ misses.old ++ all_misses_under self.now (records_tree records.now)) }
    {
        let mut made = Records::with_capacity(alloc, records.count())?;
        let mut number: u32 = 0;
        for one in records.as_slice() {
            made.push(self.convert_record(alloc, one, number, misses)?)?;
            number += 1;
        }
        Ok(made)
    }

    /// The block in the new edition, and what is missed, as `convert_tree` has it.
    #[tactic(auto, using(crate::proofs::ConvertedBlocks::blocks))]
    pub fn convert(&self, alloc: Global, block: &Block) -> Result<ConvertedBlock, AllocError>
        requires is { IsConverter self.now }
        requires fits { BlockFits self.now.old.now block.now }
        ensures converted { IfOk result (λ made. BlockConverted self.now.old.now self.now.new.now block.now made.block) }
        ensures misses { IfOk result (λ made. made.misses ≡ misses_of self.now.old.now self.now.new.now block.now) }
        ensures fits { IfOk result (λ made. BlockFits self.now.new.now made.block) }
    {
        match block {
            Block::Read { category, records } => {
                let mut misses = Misses::new(alloc);
                let made = self.convert_records(alloc, records, &mut misses)?;
                let block = Block::Read {
                    category: *category,
                    records: made,
                };
                Ok(ConvertedBlock { block, misses })
            }
            Block::Opaque { .. } => Ok(ConvertedBlock {
                block: block.copy(alloc)?,
                misses: Misses::new(alloc),
            }),
        }
    }
}

/// The block in the new edition, and what its conversion missed. In each record the entries of the keys that both editions
/// share pass, as they migrate; the value of a path that isn't shared, whose kinds in both editions are alike, is converted,
/// exactly, where each of its quantities' numbers is one under the new scale; else the path is unconverted, and any other key is
/// lost. A record that keeps nothing stays, with no item. An opaque block is unchanged. Err is want of memory.
pub fn convert_tree(
    alloc: Global,
    relation: &Relation,
    old: &Spec,
    new: &Spec,
    block: &Block,
) -> Result<ConvertedBlock, AllocError>
    requires related { Relates old.now new.now relation.now }
    requires fits { BlockFits old.now block.now }
    ensures converted { IfOk result (λ made. BlockConverted old.now new.now block.now made.block) }
    ensures misses { IfOk result (λ made. made.misses ≡ misses_of old.now new.now block.now) }
    ensures fits { IfOk result (λ made. BlockFits new.now made.block) }
{
    Converter::new(alloc, relation, old, new)?.convert(alloc, block)
}
