//! The laws of block texts. Each function stands for what its contract says.
ghost use Rattle.std.specs.Prelude.{◌≡◌, ℕ, ◌≤◌, List};
ghost use Rattle.std.specs.List.{AllByRecursion};
ghost use Rattle.ax_format.specs.Blocks.{BlockTree};
ghost use Rattle.ax_format.specs.CanonicalOctets.{category_of};
ghost use Rattle.ax_format.specs.Flaws.{NoFlaw};
ghost use Rattle.ax_format.specs.Specification.{SpecTree, spec_of};
ghost use Rattle.ax_tokens.specs.Depth.{IsWithin};
ghost use Rattle.ax_tokens.specs.Lexing.{AreTokensOf};
ghost use Rattle.ax_text_form.specs.BlockText.{BlockLine};
ghost use Rattle.ax_text_form.specs.Names.{IsNamed};
ghost use Rattle.ax_text_form.specs.Tokens.{TextOver, IsOfCatalogue, HoldsBlock, BlockTokens, block_nesting};

/// Under one catalogue of specifications without flaw the text of a block determines it.
pub fn block_text_once()
    ensures { (catalogue : List SpecTree) (block other : BlockTree)
        → AllByRecursion (λ spec. NoFlaw spec × IsNamed spec) catalogue → IsOfCatalogue catalogue block
        → IsOfCatalogue catalogue other →
        TextOver (spec_of (category_of block) catalogue) block ≡ TextOver (spec_of (category_of other) catalogue) other
        → block ≡ other }
{}

/// The tokens of a block's line are those that were printed, wherever their braces keep the limit; and they nest no deeper
/// than the kinds of the specification let them.
pub fn printed_block_tokens()
    ensures tokens { (limit : ℕ) (spec : SpecTree) (block : BlockTree) → NoFlaw spec → IsNamed spec → HoldsBlock spec block
        → IsWithin limit (BlockTokens spec block) → AreTokensOf (BlockLine spec block) limit (BlockTokens spec block) }
    ensures within { (limit : ℕ) (spec : SpecTree) (block : BlockTree) → NoFlaw spec → IsNamed spec → HoldsBlock spec block
        → block_nesting spec ≤ limit → IsWithin limit (BlockTokens spec block) }
{}
