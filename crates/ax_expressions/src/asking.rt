//! How much is asked of a record. It decides how the record is asked, and not what is answered.

use crate::plan::{CategoryPlans, Plan, Plans};
use crate::test::{Test, Tests};

/// Up to so many tests each find their item by a walk over the items before it. To find all items of a record takes about
/// as long as a few such walks.
pub const FEW: u32 = 4;

/// The tests among these and within them, counted up to 2^32 - 1.
#[cycle(counting)]
fn count_each(tests: &Tests) -> u32 {
    let mut count: u32 = 0;
    for test in tests.as_slice() {
        count = count.saturating_add(count_tests(test));
    }
    count
}

/// A test and those within it, whether or not they ask what stands at a place, counted up to 2^32 - 1.
#[cycle(counting)]
pub fn count_tests(test: &Test) -> u32 {
    match test {
        Test::All(tests) => count_each(tests).saturating_add(1),
        Test::Any(tests) => count_each(tests).saturating_add(1),
        Test::Not(inner) => count_tests(inner).saturating_add(1),
        Test::Present { .. } => 1,
        Test::Is { .. } => 1,
    }
}

/// Those among plans that ask, counted up to 2^32 - 1.
#[cycle(asking)]
fn each_asking(plans: &Plans) -> u32 {
    let mut count: u32 = 0;
    for plan in plans.as_slice() {
        count = count.saturating_add(asking(plan));
    }
    count
}

/// The questions that a plan asks, each as often as it does, counted up to 2^32 - 1.
#[cycle(asking)]
pub fn asking(plan: &Plan) -> u32 {
    match plan {
        Plan::Always { .. } => 0,
        Plan::Asks { .. } => 1,
        Plan::Not { plan } => asking(plan),
        Plan::Several { plans, .. } => each_asking(plans),
    }
}

/// The questions that all plans ask, each as often as they do, counted up to 2^32 - 1.
pub fn asking_in_all(plans: &CategoryPlans) -> u32 {
    let mut count: u32 = 0;
    for plan in plans.as_slice() {
        count = count.saturating_add(plan.asking);
    }
    count
}
