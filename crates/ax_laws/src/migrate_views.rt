//! The laws of migrated octets. Each function stands for what its contract says.
ghost use Rattle.std.specs.Prelude.{◌≡◌};
ghost use Rattle.ax_relation.specs.Moves.{moves_from, record_moves};
ghost use Rattle.ax_relation.specs.Moved.{moved_record};
ghost use Rattle.ax_moves.specs.Octets.{canon_by};
ghost use Rattle.ax_format.specs.Bodies.{RecordShape};
ghost use Rattle.ax_format.specs.Canonical.{canon};
ghost use Rattle.ax_format.specs.Flaws.{NoFlaw};
ghost use Rattle.ax_format.specs.Specification.{SpecTree, record_kind};
ghost use Rattle.ax_format.specs.Tree.{EntriesTree, marked};
ghost use Rattle.ax_codec.specs.Bare.{bare_kind};

/// The octets that the moves of two editions make of a record of the old one, without names and contents, are the canonical
/// octets of its migrated record.
pub fn moves_spell_the_migrated_record()
    ensures { (old new : SpecTree) (entries : EntriesTree) → NoFlaw old → NoFlaw new → RecordShape old entries →
        canon_by (moves_from (record_moves old new)) (bare_kind (record_kind old)) (marked entries)
        ≡ canon (record_kind new) (marked (moved_record old new entries)) }
{}
