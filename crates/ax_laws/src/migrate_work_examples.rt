//! A worked example of `migrate`. The function stands for what its contract says.
ghost use Rattle.std.specs.Prelude.{◌≡◌, [], ◌∷◌, Some, codes};
ghost use Rattle.ax_migration.specs.Commands.{migrate_command, unless_too_long};
ghost use Rattle.ax_format.specs.Blocks.{read_block, opaque_block};
ghost use Rattle.ax_format.specs.EditionExamples.{first_edition, second_edition, both_subitems};
ghost use Rattle.ax_blocks.specs.Commands.{gives, too_long};

/// A block that loses a subitem, an opaque one, and one with a record that is too long.
pub fn answers_to_blocks()
    ensures read { (migrate_command first_edition second_edition).answer 3 (read_block 202 (both_subitems ∷ []))
        ≡ gives (codes "lost block 3 record 0 202/010/A\n") (0xCA ∷ 0 ∷ 7 ∷ 0x80 ∷ 0x80 ∷ 0x22 ∷ 0x33 ∷ []) }
    ensures opaque { (migrate_command first_edition second_edition).answer 3 (opaque_block 62 (128 ∷ 255 ∷ []))
        ≡ gives [] (62 ∷ 0 ∷ 5 ∷ 128 ∷ 255 ∷ []) }
    ensures long { unless_too_long (Some 65536) [] [] ≡ too_long 65536 }
{}
