//! The law of `filter`. The function stands for what its contract says.

ghost use Rattle.std.specs.Prelude.{◌≡◌, ℕ, List, []};
ghost use Rattle.ax_expressions.specs.Tree.{ExprTree};
ghost use Rattle.ax_filter_work.specs.FilterCommand.{filter_command, matching_blocks};
ghost use Rattle.ax_format.specs.Blocks.{BlockTree, SpellsStream};
ghost use Rattle.ax_format.specs.CanonicalOctets.{CanonBytes};
ghost use Rattle.ax_format.specs.Specification.{SpecTree};
ghost use Rattle.ax_blocks.specs.Commands.{output_of, report_of};

/// What `filter` writes for blocks of a stream, whatever the number of the first, are the canonical octets of the blocks of
/// their matching records, and it reports nothing.
pub fn filter_writes_matching_records()
    ensures written { (e : ExprTree) (catalogue : List SpecTree) (blocks : List BlockTree) (octets : List ℕ) (number : ℕ)
        → SpellsStream catalogue blocks octets
        → output_of (filter_command e catalogue) number blocks ≡ CanonBytes catalogue (matching_blocks catalogue e blocks) }
    ensures reported { (e : ExprTree) (catalogue : List SpecTree) (blocks : List BlockTree) (number : ℕ)
        → report_of (filter_command e catalogue) number blocks ≡ [] }
{}
