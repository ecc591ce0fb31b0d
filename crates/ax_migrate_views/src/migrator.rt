//! What blocks are migrated by.
ghost use Rattle.ax_migrate_views.specs.Editions.{AreEditions, AreEditions-prop};
ghost use Rattle.ax_migrate_views.specs.Kept.{KeepsRecords, KeepsRecords-prop};
ghost use Rattle.ax_moves.specs.KnownMoves.{KnowsMoves, KnowsMoves-prop};

use crate::kept::KeptSlots;
use ax_codec::Codec;
use ax_format::Spec;
use ax_moves::{LostKey, SlotMoves};
use ax_relation::Relation;

/// Migration from one edition to another, by the relation of the two and the codec of the old one: each is of these editions.
/// Memory is taken when it is made, and none for a block.
pub struct Migrator<'c> {
    /// The two editions: contracts speak of them, the code doesn't.
    pub(crate) old: &'c Spec,
    pub(crate) new: &'c Spec,
    pub(crate) relation: &'c Relation,
    pub(crate) codec: &'c Codec,
    /// The keys that have no new place, in order.
    pub(crate) lost: Vec<LostKey<'c>>,
    /// What is known of the relation's moves.
    pub(crate) known: SlotMoves,
    /// By what its records are known to stay as they are, and to lose nothing.
    pub(crate) kept: KeptSlots,
    ghost editions: { AreEditions old.now new.now relation.now codec.now lost.items } by { AreEditions-prop old.now new.now relation.now codec.now lost.items },
    ghost kept_records: { KeepsRecords codec.now relation.now.moves lost.items kept } by { KeepsRecords-prop codec.now relation.now.moves lost.items kept },
    ghost moves: { KnowsMoves codec.now.nodes codec.now.slots relation.now.moves known } by { KnowsMoves-prop codec.now.nodes codec.now.slots relation.now.moves known },
}

impl Drop for Migrator<'_> {
    fn drop(self) {
        let Migrator {
            old: _old,
            new: _new,
            relation: _relation,
            codec: _codec,
            lost: _lost,
            known: _known,
            kept: _kept,
        } = self;
    }
}
