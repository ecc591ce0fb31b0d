//! The laws of migration. Each function stands for what its contract says.
ghost use Rattle.std.specs.Prelude.{◌≡◌, ◌↔◌};
ghost use Rattle.ax_relation.specs.PlainMoves.{moves_tree};
ghost use Rattle.ax_relation.specs.Relates.{Relates};
ghost use Rattle.ax_relation.specs.declared.relation.Relation.{Relation};
ghost use Rattle.ax_migration.specs.Migrating.{migrated_block};
ghost use Rattle.ax_migration.specs.Moving.{entries_by};
ghost use Rattle.ax_format.specs.Blocks.{BlockTree, Fits};
ghost use Rattle.ax_format.specs.Bodies.{RecordShape};
ghost use Rattle.ax_format.specs.Flaws.{NoFlaw};
ghost use Rattle.ax_format.specs.Migrated.{Migrated, MigratedBlock};
ghost use Rattle.ax_format.specs.Plain.{spec_tree};
ghost use Rattle.ax_format.specs.Specification.{SpecTree};
ghost use Rattle.ax_format.specs.Tree.{EntriesTree};
ghost use Rattle.ax_format.specs.declared.spec.Spec.{Spec};

/// A block that fits the old edition has exactly one migrated block.
#[tactic(auto, using(ax_migration::proofs::OneBlock::block_is_migrated, ax_migration::proofs::OneBlock::migrated_is_block))]
pub fn migrates_to_one_block()
    ensures { (old new : SpecTree) (block made : BlockTree) → NoFlaw new → Fits old block
        → MigratedBlock old new block made ↔ made ≡ migrated_block old new block }
{}

/// The moves of a relation make the migrated record of each record of the old edition.
#[tactic(auto, using(ax_migrate::proofs::WholeBlocks::moves_migrate))]
pub fn moves_make_the_migrated_record()
    ensures { (old new : Spec) (relation : Relation) (entries : EntriesTree) → Relates old new relation
        → RecordShape (spec_tree old) entries
        → Migrated (spec_tree old) (spec_tree new) entries (entries_by (moves_tree relation.moves) entries) }
{}
