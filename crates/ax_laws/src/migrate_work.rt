//! The laws of `migrate`. Each function stands for what its contract says.
ghost use Rattle.std.specs.Prelude.{◌≡◌, ℕ, ◌≤◌, List, [], None, Some};
ghost use Rattle.ax_migration.specs.Losing.{block_losses, lost_lines};
ghost use Rattle.ax_migration.specs.Commands.{migrate_command};
ghost use Rattle.ax_format.specs.Blocks.{BlockTree, Fits, read_block, opaque_block};
ghost use Rattle.ax_format.specs.CanonicalOctets.{canon_block, canon_length, framed};
ghost use Rattle.ax_format.specs.Flaws.{NoFlaw};
ghost use Rattle.ax_format.specs.Migrated.{MigratedBlock};
ghost use Rattle.ax_format.specs.Sizes.{longest_block};
ghost use Rattle.ax_format.specs.Specification.{SpecTree};
ghost use Rattle.ax_format.specs.Split.{first_too_long, split_octets};
ghost use Rattle.ax_format.specs.Tree.{EntriesTree};
ghost use Rattle.ax_blocks.specs.Commands.{gives, too_long};

/// A block that fits the old edition is answered by its migrated records and the lost paths of its records: these lines, and
/// the octets of the blocks that the migrated records are split into; or the octets of the first migrated record that has too
/// many for a block of its own. A migrated block of at most 65,535 octets is the one block. An opaque block is answered as it
/// is.
#[tactic(auto, using(ax_migration::proofs::Answering::answers))]
pub fn migrate_answers_by_the_migrated_block()
    ensures split { (old new : SpecTree) (number category : ℕ) (records made : List EntriesTree) → NoFlaw new
        → Fits old (read_block category records) → MigratedBlock old new (read_block category records) (read_block category made)
        → first_too_long new made ≡ None
        → (migrate_command old new).answer number (read_block category records)
        ≡ gives (lost_lines number (block_losses old new (read_block category records))) (split_octets new made) }
    ensures long { (old new : SpecTree) (number category count : ℕ) (records made : List EntriesTree) → NoFlaw new
        → Fits old (read_block category records) → MigratedBlock old new (read_block category records) (read_block category made)
        → first_too_long new made ≡ Some count
        → (migrate_command old new).answer number (read_block category records) ≡ too_long count }
    ensures short { (old new : SpecTree) (number : ℕ) (block made : BlockTree) → old.category ≡ new.category → NoFlaw new
        → Fits old block → MigratedBlock old new block made → canon_length new made ≤ longest_block
        → (migrate_command old new).answer number block
        ≡ gives (lost_lines number (block_losses old new block)) (canon_block new made) }
    ensures opaque { (old new : SpecTree) (number category : ℕ) (content : List ℕ)
        → (migrate_command old new).answer number (opaque_block category content) ≡ gives [] (framed category content) }
{}
