//! Worked examples of expressions: their tokens, and the records that they hold of. Each function stands for what its
//! contract says.
ghost use Rattle.std.specs.Prelude.{◌≡◌, true, false, [], ◌∷◌, codes, pos, negsuc};
ghost use Rattle.ax_format.specs.Tree.{no_entries};
ghost use Rattle.ax_laws.specs.FilterExamples.{two_numbers, both_200, item, member, holds_of, is};
ghost use Rattle.ax_expressions.specs.Meaning.{holds};
ghost use Rattle.ax_expressions.specs.Spelling.{expr_texts};
ghost use Rattle.ax_expressions.specs.Tree.{all_of, any_of, not_of, present, compared, no_exprs, expr_and};
ghost use Rattle.ax_expressions.specs.declared.expr.Op.TheVariants.{Equal, Unequal, Less, Greater};

/// The tokens of an expression, with each path in full.
pub fn tokens_of_expressions()
    ensures all { expr_texts (all_of (expr_and (present item) no_exprs))
        ≡ codes "all" ∷ codes "{" ∷ codes "present" ∷ codes "210/010" ∷ codes "}" ∷ [] }
    ensures not { expr_texts (not_of (present (member (codes "U"))))
        ≡ codes "not" ∷ codes "{" ∷ codes "present" ∷ codes "210/010/U" ∷ codes "}" ∷ [] }
{}

/// A number is compared as its content reads it.
pub fn numbers_compared()
    ensures unsigned { holds_of both_200 (is (codes "U") Greater (pos 199)) ≡ true }
    ensures signed { holds_of both_200 (is (codes "S") Equal (negsuc 55)) ≡ true }
    ensures below_zero { holds_of both_200 (is (codes "S") Less (pos 0)) ≡ true }
    ensures no_element { holds_of both_200 (compared item Equal (pos 200)) ≡ false }
{}

/// What is absent compares with nothing, and nothing of another category is there.
pub fn nothing_there()
    ensures unequal { holds_of no_entries (is (codes "U") Unequal (pos 5)) ≡ false }
    ensures not_equal { holds_of no_entries (not_of (is (codes "U") Equal (pos 5))) ≡ true }
    ensures unknown { holds_of both_200 (present (member (codes "T"))) ≡ false }
    ensures category { holds (two_numbers ∷ []) 211 both_200 (present item) ≡ false }
{}

/// Each of none holds, and none of none does.
pub fn of_no_expressions()
    ensures all { holds_of no_entries (all_of no_exprs) ≡ true }
    ensures any { holds_of no_entries (any_of no_exprs) ≡ false }
{}
