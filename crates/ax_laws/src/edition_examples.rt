//! Worked examples of migrated records. Each function stands for what its contract says.
ghost use Rattle.std.specs.Prelude.{◌≡◌, [], ◌∷◌, codes};
ghost use Rattle.ax_bits.specs.Bits.{bits};
ghost use Rattle.ax_relation.specs.Moved.{moved_record};
ghost use Rattle.ax_format.specs.Bodies.{CanonRecord};
ghost use Rattle.ax_format.specs.EditionExamples.{one_item, first_edition, second_edition, third_edition, scaled, both_subitems, second_made};
ghost use Rattle.ax_format.specs.Migrated.{Migrated};
ghost use Rattle.ax_format.specs.PartExamples.{three_parts, other_second, two_same, none_same, closed_second, with_table, one_part, two_parts, all_parts};
ghost use Rattle.ax_format.specs.Tree.{number, no_entries, entry_and};

/// A subitem in another slot is kept, and one of another content is lost.
pub fn compound_in_another_order()
    ensures made { moved_record first_edition second_edition both_subitems ≡ second_made }
    ensures migrated { Migrated first_edition second_edition both_subitems second_made }
{}

/// A compound that becomes an element is lost with its subitems, and the record stays with no item.
pub fn compound_becomes_an_element()
    ensures made { moved_record first_edition third_edition both_subitems ≡ no_entries }
{}

/// A record moves to its own edition as it is.
pub fn same_edition()
    ensures made { moved_record first_edition first_edition both_subitems ≡ both_subitems }
{}

/// An item whose scale changed is lost.
pub fn scale_changed()
    ensures made { moved_record (one_item (codes "1") (scaled 1 4)) (one_item (codes "2") (scaled 2 8)) (entry_and 1 (number 5) no_entries)
        ≡ no_entries }
{}

/// The first parts move, all of them where no more are present; those of a closed item too.
pub fn first_parts_move()
    ensures cut { moved_record three_parts other_second all_parts ≡ one_part }
    ensures two { moved_record three_parts two_same all_parts ≡ two_parts }
    ensures few { moved_record three_parts two_same one_part ≡ one_part }
    ensures none { moved_record three_parts none_same all_parts ≡ no_entries }
    ensures closed { moved_record closed_second three_parts two_parts ≡ one_part }
    ensures own_closed { moved_record closed_second closed_second two_parts ≡ two_parts }
    ensures tables { moved_record (with_table (codes "one")) (with_table (codes "eins")) one_part ≡ one_part }
{}

/// The last part that moves has no part behind it, so its FX bit is 0; that of the whole value was 1.
pub fn last_part_that_moves()
    ensures whole { CanonRecord three_parts all_parts ≡ bits (128 ∷ 3 ∷ 5 ∷ 6 ∷ []) }
    ensures cut { CanonRecord other_second (moved_record three_parts other_second all_parts) ≡ bits (128 ∷ 2 ∷ []) }
    ensures closed { CanonRecord closed_second two_parts ≡ bits (128 ∷ 3 ∷ 2 ∷ []) }
    ensures closed_cut { CanonRecord three_parts (moved_record closed_second three_parts two_parts) ≡ bits (128 ∷ 2 ∷ []) }
{}
