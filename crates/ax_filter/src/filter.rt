//! Filters: an expression over a catalogue.
ghost use Rattle.std.specs.Prelude.{◌≡◌, ℕ};
ghost use Rattle.ax_expressions.specs.Plans.{PlanEach};
ghost use Rattle.ax_format.specs.Plain.{catalogue_tree};
ghost use Rattle.ax_format.specs.Tree.{EntriesTree};
ghost use Rattle.ax_expressions.specs.Meaning.{holds};
ghost use Rattle.ax_expressions.specs.Tests.{test_tree, passes};
ghost use Rattle.ax_expressions.specs.Tree.{expr_tree};

use ax_check::Catalogue;
use ax_expressions::{CategoryPlans, Expr, Questions, Test};

/// An expression over a catalogue: it holds of a record of a category or doesn't.
pub struct Filter<'c> {
    pub(crate) expr: Expr,
    pub(crate) catalogue: &'c Catalogue,
    pub(crate) test: Test,
    /// How many tests there are, those of several and of `not` too; counted up to 2^32 - 1.
    pub(crate) count: u32,
    /// What the plans ask, by the numbers under which they do.
    pub(crate) questions: Questions,
    /// By category, what the test asks of its records; none where there are few tests and no two ask the same.
    pub(crate) plans: CategoryPlans,
    ghost same: { (category : ℕ) (r : EntriesTree) → passes category r (test_tree test) ≡ holds (catalogue_tree catalogue.now) category r (expr_tree expr) },
    ghost planned: { PlanEach questions plans test },
}

impl Drop for Filter<'_> {
    fn drop(self) {
        let Filter {
            expr: _expr,
            catalogue: _catalogue,
            test: _test,
            count: _count,
            questions: _questions,
            plans: _plans,
        } = self;
    }
}
