//! Plans made of tests.
ghost use Rattle.std.specs.Prelude.{◌≡◌, ◌&&◌, map, IfOk};
ghost use Rattle.ax_format.specs.At.{is_present};
ghost use Rattle.ax_expressions.specs.Meaning.{compares, some_passes};
ghost use Rattle.ax_expressions.specs.Plans.{Grow, compares_so, finds_wanted, PlanEach, question_of, SaysAs, many_pass, plan_tree};
ghost use Rattle.ax_expressions.specs.Tests.{passes, test_tree};
ghost use Rattle.ax_expressions.specs.declared.plan.Want.TheVariants.{Compares};

use crate::asking::asking;
use crate::expr::Op;
use crate::grouping::grouped;
use crate::plan::{Asking, CategoryPlan, CategoryPlans, Plan, Want};
use crate::questions::{Numbering, number_of};
use crate::test::{Element, Test, Tests};
use ax_format::Place;
use std::alloc::{AllocError, Global};

/// How the number of an element compares, and with which one.
#[derive(Clone, Copy)]
struct Comparison {
    op: Op,
    number: i128,
}

/// The plan of a question about a place.
fn plan_place(
    alloc: Global,
    asking: Asking,
    place: &Place,
    want: Want,
    numbering: &mut Numbering,
) -> Result<Plan, AllocError>
    ensures plan { IfOk result (λ made. SaysAs numbering.new.questions (plan_tree made) (finds_wanted want (question_of asking place.now))) }
    ensures grow { Grow numbering.old.questions numbering.new.questions }
{
    let question = number_of(alloc, asking, place, numbering)?;
    Ok(Plan::Asks {
        slot: place.frn,
        question,
        want,
    })
}

/// The plan of a test whether something stands at a place.
fn plan_present(
    alloc: Global,
    own: bool,
    place: &Option<Place>,
    numbering: &mut Numbering,
) -> Result<Plan, AllocError>
    ensures plan { IfOk result (λ made. SaysAs numbering.new.questions (plan_tree made) (λ r. own && some_passes (is_present r) place.now)) }
    ensures grow { Grow numbering.old.questions numbering.new.questions }
{
    match place {
        Some(place) if own => plan_place(alloc, Asking::Standing, place, Want::There, numbering),
        _ => Ok(Plan::Always { holds: false }),
    }
}

/// That the number of an element's bits compares so.
fn want_of(element: &Element, comparison: Comparison) -> Want
    ensures { result ≡ Compares comparison.op element.now.signed element.now.width comparison.number }
{
    Want::Compares {
        op: comparison.op,
        signed: element.signed,
        width: element.width,
        number: comparison.number,
    }
}

/// The plan of a comparison with an element's number.
fn plan_number(
    alloc: Global,
    own: bool,
    element: &Option<Element>,
    comparison: Comparison,
    numbering: &mut Numbering,
) -> Result<Plan, AllocError>
    ensures plan { IfOk result (λ made. SaysAs numbering.new.questions (plan_tree made) (λ r. own && compares_so comparison r element.now)) }
    ensures grow { Grow numbering.old.questions numbering.new.questions }
{
    match element {
        Some(element) if own => {
            let want = want_of(element, comparison);
            plan_place(alloc, Asking::Number, &element.place, want, numbering)
        }
        _ => Ok(Plan::Always { holds: false }),
    }
}

/// The plan of several tests. Those that are the same of each record are left out, or decide.
#[cycle(planning)]
fn plan_several(
    alloc: Global,
    all: bool,
    tests: &Tests,
    category: u8,
    numbering: &mut Numbering,
) -> Result<Plan, AllocError>
    ensures plan { IfOk result (λ made. SaysAs numbering.new.questions (plan_tree made) (many_pass all category (map test_tree tests.now))) }
    ensures grow { Grow numbering.old.questions numbering.new.questions }
{
    let mut level = Vec::new(alloc);
    for test in tests.as_slice() {
        let plan = plan_of(alloc, test, category, numbering)?;
        if let Plan::Always { holds } = &plan {
            if *holds == all {
                continue;
            }
            return Ok(plan);
        }
        level.push(plan)?;
    }
    grouped(alloc, all, level)
}

/// The plan of a test, for the records of a category.
#[cycle(planning)]
pub fn plan_of(
    alloc: Global,
    test: &Test,
    category: u8,
    numbering: &mut Numbering,
) -> Result<Plan, AllocError>
    ensures plan { IfOk result (λ made. SaysAs numbering.new.questions (plan_tree made) (λ r. passes category r (test_tree test.now))) }
    ensures grow { Grow numbering.old.questions numbering.new.questions }
{
    match test {
        Test::All(tests) => plan_several(alloc, true, tests, category, numbering),
        Test::Any(tests) => plan_several(alloc, false, tests, category, numbering),
        Test::Not(inner) => {
            let plan = plan_of(alloc, inner, category, numbering)?;
            Ok(Plan::Not {
                plan: Box::new(alloc, plan)?,
            })
        }
        Test::Present {
            category: own,
            place,
        } => plan_present(alloc, *own == category, place, numbering),
        Test::Is {
            category: own,
            element,
            op,
            number,
        } => {
            let comparison = Comparison {
                op: *op,
                number: *number,
            };
            plan_number(alloc, *own == category, element, comparison, numbering)
        }
    }
}

/// What a test asks of the records of a category.
fn plan_category(
    alloc: Global,
    test: &Test,
    category: u8,
    numbering: &mut Numbering,
) -> Result<CategoryPlan, AllocError>
    ensures plan { IfOk result (λ made. SaysAs numbering.new.questions (plan_tree made.plan) (λ r. passes category r (test_tree test.now))) }
    ensures grow { Grow numbering.old.questions numbering.new.questions }
{
    let plan = plan_of(alloc, test, category, numbering)?;
    let asking = asking(&plan);
    Ok(CategoryPlan { plan, asking })
}

/// What a test asks of the records of each category, by its number.
#[tactic(auto, using(crate::proofs::PlannedTests::categories))]
pub fn plan_categories(
    alloc: Global,
    test: &Test,
    numbering: &mut Numbering,
) -> Result<CategoryPlans, AllocError>
    ensures { IfOk result (λ made. PlanEach numbering.new.questions made test.now) }
{
    let mut made = CategoryPlans::new(alloc);
    for category in 0..256u32 {
        made.push(plan_category(alloc, test, category as u8, numbering)?)?;
    }
    Ok(made)
}
