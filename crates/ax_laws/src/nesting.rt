//! The laws of files and block texts. Each function stands for what its contract says.
ghost use Rattle.std.specs.Prelude.{◌≤◌};
ghost use Rattle.ax_grammar.specs.InRange.{InRange};
ghost use Rattle.ax_grammar.specs.Printing.{spelled_tokens};
ghost use Rattle.ax_format.specs.Blocks.{BlockTree};
ghost use Rattle.ax_format.specs.Flaws.{NoFlaw};
ghost use Rattle.ax_format.specs.Specification.{SpecTree};
ghost use Rattle.ax_tokens.specs.Depth.{IsWithin};
ghost use Rattle.ax_tokens.specs.Lexing.{AreTokensOf};
ghost use Rattle.ax_text_form.specs.BlockText.{BlockLine};
ghost use Rattle.ax_text_form.specs.Tokens.{HoldsBlock, BlockTokens, block_nesting};

/// Where the braces of a category file nest at most 16 deep, those of its blocks' texts nest at most 18 deep: around an
/// item's kind a file has one brace and a block two, and a by-FX item has braces in a block alone. So a line that was
/// printed for a block is taken apart into the tokens that were printed, by the limit of 20 that record text has.
pub fn block_texts_nest_as_files_do()
    ensures nesting { (spec : SpecTree) → InRange spec → IsWithin 16 (spelled_tokens spec) → block_nesting spec ≤ 18 }
    ensures tokens { (spec : SpecTree) (block : BlockTree) → InRange spec → NoFlaw spec → IsWithin 16 (spelled_tokens spec)
        → HoldsBlock spec block → AreTokensOf (BlockLine spec block) 20 (BlockTokens spec block) }
{}
