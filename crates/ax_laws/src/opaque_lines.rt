//! Lines of blocks without a specification. The function stands for what its contract says.
ghost use Rattle.std.specs.Prelude.{◌≡◌, ℕ, ◌+◌, ◌<◌, ◌≤◌, List, length, None};
ghost use Rattle.ax_bits.specs.Bits.{AreOctets};
ghost use Rattle.ax_build_work.specs.BuildCommand.{build_command};
ghost use Rattle.ax_lines.specs.Commands.{gives};
ghost use Rattle.ax_format.specs.CanonicalOctets.{framed};
ghost use Rattle.ax_format.specs.Sizes.{longest_block};
ghost use Rattle.ax_format.specs.Specification.{SpecTree, spec_of};
ghost use Rattle.ax_text_form.specs.BlockText.{OpaqueText, spaced_texts};

/// The line that `text` prints of a block whose category has no specification is built into that block again, where it is no longer
/// than a block may be.
pub fn opaque_lines_are_built()
    ensures { (catalogue : List SpecTree) (category number : ℕ) (content : List ℕ) → spec_of category catalogue ≡ None
        → category < 256 → AreOctets content → 0 < length content → 3 + length content ≤ longest_block
        → build_command catalogue number (spaced_texts (OpaqueText category content)) (gives (framed category content)) }
{}
