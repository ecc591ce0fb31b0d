//! The laws of block texts that are read. Each function stands for what its contract says.
ghost use Rattle.std.specs.Prelude.{◌≡◌, ℕ, ◌⊎◌, List, Some};
ghost use Rattle.std.specs.List.{AllByRecursion};
ghost use Rattle.ax_format.specs.Blocks.{BlockTree};
ghost use Rattle.ax_format.specs.CanonicalOctets.{category_of};
ghost use Rattle.ax_format.specs.Flaws.{NoFlaw};
ghost use Rattle.ax_format.specs.Specification.{SpecTree, spec_of};
ghost use Rattle.ax_tokens.specs.FirstBad.{FirstBad};
ghost use Rattle.ax_tokens.specs.PlainToken.{PlainToken};
ghost use Rattle.ax_tokens.specs.Stopping.{texts_of};
ghost use Rattle.ax_text_form.specs.BlockText.{BlockText};
ghost use Rattle.ax_text_form.specs.Names.{IsNamed};
ghost use Rattle.ax_text_form.specs.Tokens.{BlockTokens};
ghost use Rattle.ax_block_reader.specs.BlockTexts.{block_texts, Spells, IsBlockText, IsTextOf, IsFault};
ghost use Rattle.ax_text_form.specs.CatalogueBlocks.{IsBlockOf};
ghost use Rattle.ax_block_reader.specs.declared.error.TextError.{TextError};
ghost use Rattle.ax_block_reader.specs.declared.error.TextError.TheVariants as Fault;

/// What is read is what was printed: the texts of the language are those that `ax_text_form` prints for the blocks that fit
/// the catalogue, and the tokens of a block's line spell that block.
pub fn printed_texts_are_read()
    ensures texts { (catalogue : List SpecTree) (spec : SpecTree) (block : BlockTree)
        → spec_of (category_of block) catalogue ≡ Some spec → block_texts catalogue block ≡ BlockText spec block }
    ensures tokens { (catalogue : List SpecTree) (spec : SpecTree) (block : BlockTree)
        → spec_of (category_of block) catalogue ≡ Some spec → IsBlockOf catalogue block
        → Spells catalogue (BlockTokens spec block) block }
{}

/// Under one catalogue of specifications without flaw tokens have one answer, if memory doesn't run out: one block, or one
/// fault.
pub fn one_answer()
    ensures block { (catalogue : List SpecTree) (tokens : List PlainToken) (block other : BlockTree)
        → AllByRecursion (λ spec. NoFlaw spec × IsNamed spec) catalogue → IsTextOf catalogue tokens block
        → IsTextOf catalogue tokens other → block ≡ other }
    ensures fault { (catalogue : List SpecTree) (tokens : List PlainToken) (a b : TextError)
        → AllByRecursion (λ spec. NoFlaw spec × IsNamed spec) catalogue → IsFault catalogue tokens a → IsFault catalogue tokens b
        → (a ≡ b) ⊎ ((a ≡ Fault.OutOfMemory) ⊎ (b ≡ Fault.OutOfMemory)) }
    ensures none { (catalogue : List SpecTree) (tokens : List PlainToken) (block : BlockTree) (error : TextError)
        → AllByRecursion (λ spec. NoFlaw spec × IsNamed spec) catalogue → IsTextOf catalogue tokens block
        → IsFault catalogue tokens error → error ≡ Fault.OutOfMemory }
{}

/// Under specifications without flaw whose names are names, any tokens are the text of a block, or one of them is the first bad
/// one.
pub fn text_or_bad()
    ensures { (catalogue : List SpecTree) → AllByRecursion (λ spec. NoFlaw spec × IsNamed spec) catalogue
        → (tokens : List PlainToken) → ((block : BlockTree) × Spells catalogue tokens block)
        ⊎ ((token : ℕ) × FirstBad (IsBlockText catalogue) (texts_of tokens) token) }
{}
