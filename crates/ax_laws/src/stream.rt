//! The laws of block commands. Each function stands for what its contract says.

ghost use Rattle.std.specs.Prelude.{◌≡◌, ℕ, List, []};
ghost use Rattle.std.specs.List.{AllByRecursion};
ghost use Rattle.ax_bits.specs.Bits.{AreOctets};
ghost use Rattle.ax_format.specs.Blocks.{BlockTree, SpellsStream};
ghost use Rattle.ax_format.specs.CanonicalOctets.{CanonBytes};
ghost use Rattle.ax_format.specs.Flaws.{NoFlaw};
ghost use Rattle.ax_format.specs.Specification.{SpecTree};
ghost use Rattle.ax_blocks.specs.BlockCommands.{canon_command};
ghost use Rattle.ax_blocks.specs.Commands.{BlockCommand, output_of, report_of};
ghost use Rattle.ax_blocks.specs.Streams.{StreamAnswers};
ghost use Rattle.ax_blocks.specs.declared.end.StreamEnd.{StreamEnd};

/// What `canon` writes for blocks of a stream, whatever the number of the first, are their canonical octets, and it
/// reports nothing.
pub fn canon_writes_canonical_octets()
    ensures written { (catalogue : List SpecTree) (blocks : List BlockTree) (octets : List ℕ) (number : ℕ)
        → SpellsStream catalogue blocks octets → output_of (canon_command catalogue) number blocks ≡ CanonBytes catalogue blocks }
    ensures reported { (catalogue : List SpecTree) (blocks : List BlockTree) (number : ℕ)
        → report_of (canon_command catalogue) number blocks ≡ [] }
{}

/// An input of octets has an answer by a block command whose specifications have no flaw: the end, and the blocks whose results
/// are written.
pub fn some_answer()
    ensures { (c : BlockCommand) (limit : ℕ) (input : List ℕ) → AreOctets input → AllByRecursion NoFlaw c.catalogue
        → (blocks : List BlockTree) × (end : StreamEnd) × StreamAnswers c limit input blocks end }
{}
