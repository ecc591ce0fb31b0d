//! Expressions over paths: what their tokens spell, the first fault of tokens that are no expression over a catalogue, the tests that
//! an expression makes of records, and plans of what the tests ask. Which records an expression holds of stands above, in `ax_filter`.
#![tactic(auto)]

mod asking;
mod comparing;
mod error;
mod expr;
mod expressions;
mod faults;
mod grouping;
mod numbers;
mod paths;
mod plan;
mod planning;
mod questions;
mod resolving;
mod same_slot;
mod slot_sets;
mod stop;
mod syntax;
mod test;
mod words;

pub use asking::{FEW, asking_in_all, count_tests};
pub use comparing::compares_as;
pub use error::FilterError;
pub use expr::{Expr, Exprs, FullPath, Op};
pub use faults::{PathFault, first_fault};
pub use grouping::{asked_by, said_of_none};
pub use plan::{
    Asking, CategoryPlan, CategoryPlans, Found, Plan, Plans, Question, Questions, Want,
};
pub use planning::plan_categories;
pub use questions::Numbering;
pub use resolving::resolve;
pub use slot_sets::{has_slot, meets};
pub use stop::{FilterFault, FilterStop};
pub use syntax::{ExprSyntaxError, read_expr};
pub use test::{Element, Test, Tests};
