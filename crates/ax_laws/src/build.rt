//! The laws of `build`. Each function stands for what its contract says.
ghost use Rattle.std.specs.Prelude.{◌≡◌, ℕ, ◌≤◌, List, Some};
ghost use Rattle.std.specs.List.{AllByRecursion};
ghost use Rattle.ax_block_reader.specs.BlockTexts.{canonical_length};
ghost use Rattle.ax_text_form.specs.CatalogueBlocks.{IsBlockOf};
ghost use Rattle.ax_build_work.specs.BuildCommand.{AnswersLine, build_command, deepest};
ghost use Rattle.ax_lines.specs.Commands.{gives, HasOneAnswer, LineAnswer};
ghost use Rattle.ax_lines.specs.declared.text_fault.TextFault.{TextFault};
ghost use Rattle.ax_format.specs.Blocks.{BlockTree};
ghost use Rattle.ax_format.specs.CanonicalOctets.{canon_block, category_of};
ghost use Rattle.ax_format.specs.Flaws.{NoFlaw};
ghost use Rattle.ax_format.specs.Sizes.{longest_block};
ghost use Rattle.ax_format.specs.Specification.{SpecTree, spec_of};
ghost use Rattle.ax_text_form.specs.Names.{IsNamed};
ghost use Rattle.ax_text_form.specs.Tokens.{BlockTokens};
ghost use Rattle.ax_tokens.specs.Lexing.{AreTokensOf};

/// Under specifications without flaw whose names are names, no line has two answers.
pub fn one_answer()
    ensures { (catalogue : List SpecTree) → AllByRecursion (λ spec. NoFlaw spec × IsNamed spec) catalogue
        → HasOneAnswer (build_command catalogue) }
{}

/// Under specifications without flaw whose names are names, each line has an answer.
pub fn some_answer()
    ensures { (catalogue : List SpecTree) → AllByRecursion (λ spec. NoFlaw spec × IsNamed spec) catalogue
        → (line : List ℕ) → (answer : LineAnswer TextFault) × AnswersLine catalogue line answer }
{}

/// A line whose tokens are those of a printed block, of a category with a specification, is answered with the block's
/// canonical form, where that is no longer than a block may be.
pub fn printed_lines_are_built()
    ensures { (catalogue : List SpecTree) (spec : SpecTree) (block : BlockTree) (number : ℕ) (line : List ℕ)
        → spec_of (category_of block) catalogue ≡ Some spec → IsBlockOf catalogue block
        → canonical_length catalogue block ≤ longest_block
        → AreTokensOf line deepest (BlockTokens spec block)
        → build_command catalogue number line (gives (canon_block spec block)) }
{}
