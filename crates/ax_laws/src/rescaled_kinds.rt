//! Worked examples of kinds that are alike. Each function stands for what its contract says.
ghost use Rattle.std.specs.Prelude.{◌≡◌, true, false, [], ◌∷◌, codes};
ghost use Rattle.ax_format.specs.Tree.{element, fixed, by_fx, number, occurrences};
ghost use Rattle.ax_format.specs.declared.content.Content.TheVariants.{Raw, Table, Integer};
ghost use Rattle.ax_format.specs.declared.content.Sign.TheVariants.{Unsigned, Signed};
ghost use Rattle.ax_format.specs.declared.kind.LastPart.TheVariants.{WithFx, WithoutFx};
ghost use Rattle.ax_rescale.specs.Alike.{is_alike};
ghost use Rattle.ax_rescale.specs.Converted.{Converted};
ghost use Rattle.ax_laws.specs.AlikeExamples.{pieces, signed_pieces, pair, in_a_part, subitems, many, seconds, with_spare, two_of, one_and_none};

/// A quantity may have another width, another sign and another scale, but no other unit.
pub fn quantities_alike()
    ensures scale { is_alike (fixed (pieces 16 128 (codes "s"))) (fixed (pieces 24 256 (codes "s"))) ≡ true }
    ensures sign { is_alike (fixed (pieces 16 4 (codes "s"))) (fixed (signed_pieces 16 4 (codes "s"))) ≡ true }
    ensures unit { is_alike (fixed (pieces 16 128 (codes "s"))) (fixed (pieces 16 128 (codes "min"))) ≡ false }
    ensures whole_number { is_alike (fixed (pieces 16 1 [])) (fixed (element 16 (Integer Unsigned))) ≡ false }
{}

/// Of other elements the width and the sign count, and of a table no entry does.
pub fn other_elements_alike()
    ensures entries { is_alike (fixed (element 8 (Table (record { number = 1; text = codes "one" } ∷ [])))) (fixed (element 8 (Table []))) ≡ true }
    ensures table_width { is_alike (fixed (element 8 (Table []))) (fixed (element 16 (Table []))) ≡ false }
    ensures raw_width { is_alike (fixed (element 8 Raw)) (fixed (element 16 Raw)) ≡ false }
    ensures sign { is_alike (fixed (element 8 (Integer Unsigned))) (fixed (element 8 (Integer Signed))) ≡ false }
{}

/// Quantities count in a group and in each occurrence of a by-FX or a counted item, also in the subitems below a counted one.
pub fn alike_inside()
    ensures group { is_alike (pair 8 (pieces 12 4 (codes "s"))) (pair 8 (pieces 20 8 (codes "s"))) ≡ true }
    ensures spare_width { is_alike (pair 8 (pieces 12 4 (codes "s"))) (pair 16 (pieces 12 4 (codes "s"))) ≡ false }
    ensures by_fx { is_alike (by_fx (pieces 7 1 (codes "s"))) (by_fx (pieces 15 2 (codes "s"))) ≡ true }
    ensures counted { is_alike (many (fixed (pieces 16 4 (codes "s")))) (many (fixed (pieces 24 8 (codes "s")))) ≡ true }
    ensures counted_compound { is_alike (many (subitems (fixed (pieces 16 4 (codes "s"))))) (many (subitems (fixed (pieces 24 8 (codes "s")))))
        ≡ true }
    ensures counted_unit { is_alike (many (subitems (fixed (pieces 16 4 (codes "s"))))) (many (subitems (fixed (pieces 16 4 (codes "min")))))
        ≡ false }
{}

/// An extended item and a compound are like no kind. Below a counted item an extended one is converted in nothing.
pub fn not_alike()
    ensures compound { is_alike (subitems (fixed (pieces 16 4 (codes "s")))) (subitems (fixed (pieces 16 4 (codes "s")))) ≡ false }
    ensures extended { is_alike (in_a_part WithFx (pieces 7 1 (codes "s"))) (in_a_part WithFx (pieces 7 1 (codes "s"))) ≡ false }
    ensures closed { is_alike (in_a_part WithoutFx (pieces 8 1 (codes "s"))) (in_a_part WithoutFx (pieces 8 1 (codes "s"))) ≡ false }
    ensures counted_extended { is_alike (many (in_a_part WithFx (pieces 7 1 (codes "s")))) (many (in_a_part WithFx (pieces 7 2 (codes "s"))))
        ≡ false }
    ensures counted_closed { is_alike (many (in_a_part WithoutFx (pieces 8 1 (codes "s")))) (many (in_a_part WithoutFx (signed_pieces 8 1 (codes "s"))))
        ≡ false }
    ensures own_extended { is_alike (many (in_a_part WithFx (pieces 7 1 (codes "s")))) (many (in_a_part WithFx (pieces 7 1 (codes "s")))) ≡ true }
{}

/// Values and what they are converted to: a group of two quantities with spare bits between them, which stay; two occurrences; and
/// below a counted item a compound with its subitem and one without.
#[tactic(auto, using(crate::proofs::WorkedValues::values_worked))]
pub fn values_converted()
    ensures group { Converted (pair 8 (seconds 16 128)) (pair 8 (seconds 24 256)) (with_spare 256 9 3) (with_spare 512 9 6) }
    ensures by_fx { Converted (by_fx (seconds 7 1)) (by_fx (seconds 15 2)) (two_of 1 100) (two_of 2 200) }
    ensures counted { Converted (many (subitems (fixed (seconds 16 4)))) (many (subitems (fixed (seconds 24 8)))) (one_and_none 5) (one_and_none 10) }
{}
