//! The laws of the codec. Each function stands for what its contract says.
ghost use Rattle.std.specs.Prelude.{◌≡◌, ◌≢◌, ◌+◌, ◌≤◌, ℕ, List, length};
ghost use Rattle.ax_format.specs.Blocks.{opaque_block};
ghost use Rattle.ax_format.specs.OfCode.{HasNoFlaw, BlockFits, block_length};
ghost use Rattle.ax_format.specs.Plain.{spec_tree, block_tree};
ghost use Rattle.ax_format.specs.declared.record.Block.{Block};
ghost use Rattle.ax_format.specs.declared.spec.Spec.{Spec};
ghost use Rattle.ax_values.specs.Decoding.{IsReadOf};

/// A block that was read fits its specification, and its canonical form is no longer than the block in the input was:
/// it is never too long to be encoded.
#[tactic(auto, using(ax_values::proofs::RoundTrip::opaque_fits, ax_values::proofs::RoundTrip::opaque_length))]
pub fn decoded_blocks_can_be_encoded()
    ensures read_fits { (spec : Spec) (category : ℕ) (body : List ℕ) (block : Block) → category ≡ spec.category
        → IsReadOf (spec_tree spec) category body (block_tree block) → BlockFits spec block }
    ensures read_length { (spec : Spec) (category : ℕ) (body : List ℕ) (block : Block) → HasNoFlaw spec → category ≡ spec.category
        → IsReadOf (spec_tree spec) category body (block_tree block) → block_length spec block ≤ 3 + length body }
    ensures opaque_fits { (spec : Spec) (category : ℕ) (body : List ℕ) (block : Block) → category ≢ spec.category
        → 1 ≤ length body → block_tree block ≡ opaque_block category body → BlockFits spec block }
    ensures opaque_length { (spec : Spec) (category : ℕ) (body : List ℕ) (block : Block)
        → block_tree block ≡ opaque_block category body → block_length spec block ≡ 3 + length body }
{}
