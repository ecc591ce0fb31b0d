//! The laws of `convert`. Each function stands for what its contract says.
ghost use Rattle.std.specs.Prelude.{◌≡◌, ℕ, List, [], ◌∷◌, None, Some, false};
ghost use Rattle.ax_convert_work.specs.ConvertCommand.{convert_command, told_answer, told_octets, unless_too_long};
ghost use Rattle.ax_convert_work.specs.Standing.{MayConvert};
ghost use Rattle.ax_migration.specs.Commands.{migrate_command};
ghost use Rattle.ax_format.specs.Blocks.{BlockTree, Fits, read_block, opaque_block};
ghost use Rattle.ax_format.specs.CanonicalOctets.{framed};
ghost use Rattle.ax_format.specs.Ends.{RawSpells};
ghost use Rattle.ax_format.specs.Flaws.{NoFlaw};
ghost use Rattle.ax_format.specs.Framing.{RawTree};
ghost use Rattle.ax_format.specs.Specification.{SpecTree};
ghost use Rattle.ax_format.specs.Split.{first_too_long, split_octets};
ghost use Rattle.ax_format.specs.Tree.{EntriesTree};
ghost use Rattle.ax_rescale.specs.Conversion.{BlockConversion};
ghost use Rattle.ax_rescale.specs.Converts.{converting_slots};
ghost use Rattle.ax_rescale.specs.Misses.{block_misses, missed_lines};
ghost use Rattle.ax_blocks.specs.Commands.{gives, too_long};

/// A block that fits the old edition is answered by its converted records and what they miss: these lines, and the octets of the
/// blocks that the converted records are split into; or the octets of the first converted record that has too many for a block of
/// its own, of which at most 4,294,967,295 are told. An opaque block is answered as it is.
#[tactic(auto, using(crate::proofs::Converting::answers))]
pub fn convert_answers_by_the_converted_block()
    ensures split { (old new : SpecTree) (number category : ℕ) (records made : List EntriesTree) → NoFlaw new
        → Fits old (read_block category records)
        → BlockConversion old new (read_block category records) (read_block category made) → first_too_long new made ≡ None
        → (convert_command old new).answer number (read_block category records)
        ≡ gives (missed_lines number (block_misses old new (read_block category records))) (split_octets new made) }
    ensures long { (old new : SpecTree) (number category count : ℕ) (records made : List EntriesTree) → NoFlaw new
        → Fits old (read_block category records)
        → BlockConversion old new (read_block category records) (read_block category made) → first_too_long new made ≡ Some count
        → (convert_command old new).answer number (read_block category records) ≡ too_long (told_octets count) }
    ensures opaque { (old new : SpecTree) (number category : ℕ) (content : List ℕ)
        → (convert_command old new).answer number (opaque_block category content) ≡ gives [] (framed category content) }
    ensures told { unless_too_long (Some 65536) [] [] ≡ too_long 65536 }
    ensures held { unless_too_long (Some 4294967296) [] [] ≡ too_long 4294967295 }
{}

/// A block in which nothing may be converted is answered as `migrate` answers it, but that at most 4,294,967,295 octets of a record
/// that is too long are told; where octets spell the block there are never more, so that the answer is the same. Where the two
/// editions have nothing that is converted, each block is such a block.
pub fn migrates_where_nothing_is_converted()
    ensures told { (old new : SpecTree) (number : ℕ) (block : BlockTree) → MayConvert old new block ≡ false
        → (convert_command old new).answer number block ≡ told_answer ((migrate_command old new).answer number block) }
    ensures spelled { (old new : SpecTree) (number : ℕ) (raw : RawTree) (block : BlockTree) → NoFlaw old → NoFlaw new
        → MayConvert old new block ≡ false → RawSpells (old ∷ []) raw block
        → (convert_command old new).answer number block ≡ (migrate_command old new).answer number block }
    ensures each { (old new : SpecTree) (block : BlockTree) → converting_slots old new ≡ [] → MayConvert old new block ≡ false }
{}
