//! What one definition alone says, said a second time: the limits in plain numbers, which commands may end for want of memory once
//! they have read, and what single fields of larger records promise. Each function stands for what its contract says.
ghost use Rattle.std.specs.Prelude.{◌≡◌, ℕ, ◌<◌, ◌≤◌, List, length, codes, [], ◌∷◌, Ok, Err};
ghost use Rattle.ax_app.specs.Running.{TakesMemory};
ghost use Rattle.ax_blocks.specs.Taking.{IsUnfinished};
ghost use Rattle.ax_app.specs.Ends.{IsOfMigration};
ghost use Rattle.ax_app.specs.declared.end.DriveEnd.TheVariants as DriveEndOf;
ghost use Rattle.ax_grammar.specs.Rules.{width_at};
ghost use Rattle.ax_lines.specs.Ending as Lines;
ghost use Rattle.ax_format.specs.CanonicalOctets.{framed};
ghost use Rattle.ax_format.specs.Framing.{len_of};
ghost use Rattle.ax_format.specs.Sizes.{longest_block};
ghost use Rattle.ax_format.specs.Specification.{SpecTree};
ghost use Rattle.ax_endpoints.specs.Changes.{LibraryCounts, IsUnasked};
ghost use Rattle.ax_blocks.specs.Ending as Blocks;
ghost use Rattle.ax_vectors.specs.Made.{block_of};
ghost use Rattle.ax_words.specs.Words.{IsInBounds};
ghost use Rattle.ax_words.specs.declared.line.Line.TheVariants as LineOf;

/// An input of blocks or of lines has at most 2^40 octets, a line of `build` at most 2^24, its line feed aside, and a data block at
/// most 65,535.
pub fn longest_inputs()
    ensures blocks { Blocks.longest_input ≡ 1099511627776 }
    ensures lines { Lines.longest_input ≡ 1099511627776 }
    ensures line { Lines.longest_line ≡ 16777216 }
    ensures block { longest_block ≡ 65535 }
{}

/// An expression of `filter` has at most 2^31 octets. The words that have a shape keep to it, and so does the task, which takes these words.
pub fn longest_expression()
    ensures of_words { (expression : List ℕ) (files : List (List ℕ)) → length expression ≤ 2147483648 → 0 < length files
        → IsInBounds (LineOf.Filter expression files) }
    ensures words_most { (expression : List ℕ) (files : List (List ℕ)) → IsInBounds (LineOf.Filter expression files)
        → length expression ≤ 2147483648 }
{}

/// The width of an element has at most nine digits.
pub fn longest_width()
    ensures nine { width_at (codes "999999999" ∷ []) ≡ Ok (999999999, []) }
    ensures ten { width_at (codes "1000000000" ∷ []) ≡ Err (codes "1000000000" ∷ []) }
{}

/// A block that `trial` makes of a body of 65,532 octets has this body; one octet more, and it has one record without items.
pub fn longest_made_block()
    ensures whole { (category : ℕ) (body : List ℕ) → length body ≡ 65532 → block_of category body ≡ framed category body }
    ensures replaced { (category : ℕ) (body : List ℕ) → length body ≡ 65533 → block_of category body ≡ framed category (0 ∷ []) }
{}

/// `check`, `canon`, `filter`, `migrate`, `trial`, `salvage`, `--help` and `--version` don't end for want of memory once an octet of
/// the input was taken or one of the output was added.
pub fn commands_without_late_want_of_memory()
    ensures check { (file : List ℕ) → TakesMemory (LineOf.Check file) → ⊥ }
    ensures canon { (files : List (List ℕ)) → TakesMemory (LineOf.Canon files) → ⊥ }
    ensures filter { (expression : List ℕ) (files : List (List ℕ)) → TakesMemory (LineOf.Filter expression files) → ⊥ }
    ensures migrate { (old new : List ℕ) → TakesMemory (LineOf.Migrate old new) → ⊥ }
    ensures trial { (file : List ℕ) (seed count : ℕ) → TakesMemory (LineOf.Trial file seed count) → ⊥ }
    ensures salvage { (files : List (List ℕ)) → TakesMemory (LineOf.Salvage files) → ⊥ }
    ensures help { TakesMemory LineOf.Help → ⊥ }
    ensures version { TakesMemory LineOf.Version → ⊥ }
{}

/// Where nothing was asked of a library, it has loaded no octet and counted no fault.
pub fn unasked_library_is_as_it_was()
    ensures loaded { (c : LibraryCounts) → IsUnasked c → c.taken' ≡ c.taken }
    ensures faults { (c : LibraryCounts) → IsUnasked c → c.faults' ≡ c.faults }
{}

/// A block of which a failed read left the header, or more, has a LEN of 4 at least: another one is a fault, which was told.
pub fn unfinished_block_has_a_sound_length()
    ensures { (limit before : ℕ) (octets : List ℕ) → IsUnfinished limit before octets → 3 ≤ length octets → 4 ≤ len_of octets }
{}

/// Of the commands whose works take no memory, only one of two editions ends at a failed line or a refused length.
pub fn ends_of_two_editions()
    ensures line { IsOfMigration DriveEndOf.ReportFault }
    ensures length { (block octets : ℕ) → IsOfMigration (DriveEndOf.MigratedTooLong block octets) }
    ensures read { IsOfMigration DriveEndOf.ReadFault → ⊥ }
    ensures write { IsOfMigration DriveEndOf.WriteFault → ⊥ }
{}
