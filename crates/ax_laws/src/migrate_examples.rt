//! Worked examples of losses of blocks. Each function stands for what its contract says.
ghost use Rattle.std.specs.Prelude.{◌≡◌, [], ◌∷◌, codes};
ghost use Rattle.ax_migration.specs.Losing.{block_losses, lost_line};
ghost use Rattle.ax_migration.specs.Migrating.{migrated_block};
ghost use Rattle.ax_format.specs.Blocks.{read_block, opaque_block};
ghost use Rattle.ax_format.specs.EditionExamples.{first_edition, third_edition, both_subitems};
ghost use Rattle.ax_format.specs.Tree.{no_entries};

/// Of two records the second loses a compound with its subitems. It stays, with no item.
pub fn losses_of_a_block()
    ensures losses { block_losses first_edition third_edition (read_block 202 (no_entries ∷ both_subitems ∷ []))
        ≡ record { record_at = 1; path = codes "202/010" } ∷ record { record_at = 1; path = codes "202/010/A" } ∷ record { record_at = 1; path = codes "202/010/B" } ∷ [] }
    ensures made { migrated_block first_edition third_edition (read_block 202 (no_entries ∷ both_subitems ∷ []))
        ≡ read_block 202 (no_entries ∷ no_entries ∷ []) }
    ensures opaque { block_losses first_edition third_edition (opaque_block 62 (128 ∷ 255 ∷ [])) ≡ [] }
{}

/// The line of a loss.
pub fn line_of_a_loss()
    ensures { lost_line 12 0 (codes "202/010/A") ≡ codes "lost block 12 record 0 202/010/A\n" }
{}
