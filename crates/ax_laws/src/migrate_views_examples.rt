//! Worked examples of migrated octets by moves. Each function stands for what its contract says.
ghost use Rattle.std.specs.Prelude.{◌≡◌, [], ◌∷◌, ◌++◌};
ghost use Rattle.ax_bits.specs.Bits.{bits, word};
ghost use Rattle.ax_relation.specs.Moves.{moves_from, record_moves};
ghost use Rattle.ax_moves.specs.Fronts.{cleared};
ghost use Rattle.ax_moves.specs.Octets.{canon_by, with_slot};
ghost use Rattle.ax_format.specs.EditionExamples.{first_edition, second_edition, third_edition, both_subitems};
ghost use Rattle.ax_format.specs.PartExamples.{three_parts, other_second, two_same, closed_second, all_parts, two_parts};
ghost use Rattle.ax_format.specs.Specification.{record_kind};
ghost use Rattle.ax_format.specs.Tree.{marked, no_entries};
ghost use Rattle.ax_codec.specs.Bare.{bare_kind};
ghost use Rattle.ax_laws.specs.AlikeExamples.{second_full};

/// A compound of which one subitem moves; one of which nothing moves, so that its record has no item; and no entries.
pub fn octets_by_moves()
    ensures moved { canon_by (moves_from (record_moves first_edition second_edition)) (bare_kind (record_kind first_edition)) (marked both_subitems)
        ≡ word 8 0x80 ++ (word 8 0x80 ++ (word 8 0x22 ++ word 8 0x33)) }
    ensures none { canon_by (moves_from (record_moves first_edition third_edition)) (bare_kind (record_kind first_edition)) (marked both_subitems)
        ≡ word 8 0 }
    ensures empty { canon_by (moves_from (record_moves first_edition second_edition)) (bare_kind (record_kind first_edition)) (marked no_entries)
        ≡ word 8 0 }
{}

/// An extended item of which the first part passes: the FX bit of what is left is 0. Where no more parts are present than pass,
/// its octets stay; those of a closed item too, whose last octet is all value.
pub fn octets_of_first_parts()
    ensures cut { canon_by (moves_from (record_moves three_parts other_second)) (bare_kind (record_kind three_parts)) (marked all_parts)
        ≡ word 8 0x80 ++ word 8 2 }
    ensures few { canon_by (moves_from (record_moves three_parts two_same)) (bare_kind (record_kind three_parts)) (marked two_parts)
        ≡ word 8 0x80 ++ (word 8 3 ++ word 8 4) }
    ensures closed { canon_by (moves_from (record_moves closed_second closed_second)) (bare_kind (record_kind closed_second)) (marked second_full)
        ≡ word 8 0x80 ++ (word 8 0x0b ++ word 8 0xff) }
{}

/// The last bit of some octets is cleared, whatever it was, and of none nothing.
pub fn bits_with_the_last_cleared()
    ensures set { cleared (bits (3 ∷ 5 ∷ [])) ≡ bits (3 ∷ 4 ∷ []) }
    ensures clear { cleared (bits (3 ∷ 4 ∷ [])) ≡ bits (3 ∷ 4 ∷ []) }
    ensures none { cleared (bits []) ≡ [] }
{}

/// Slots of a set of three: the second is added, and numbers that are none change nothing.
pub fn slots_of_a_set()
    ensures second { with_slot 2 (0 ∷ 0 ∷ 0 ∷ []) ≡ 0 ∷ 1 ∷ 0 ∷ [] }
    ensures below { with_slot 0 (0 ∷ 0 ∷ 0 ∷ []) ≡ 0 ∷ 0 ∷ 0 ∷ [] }
    ensures past { with_slot 127 (0 ∷ 0 ∷ 0 ∷ []) ≡ 0 ∷ 0 ∷ 0 ∷ [] }
{}
