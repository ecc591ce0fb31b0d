//! What a plan says of a record. Nothing here takes memory.
ghost use Rattle.std.specs.Prelude.{◌≡◌};
ghost use Rattle.ax_filter.specs.Memos.{Recalls};
ghost use Rattle.ax_expressions.specs.Plans.{asks, finds, level_says, plan_tree, says, wanted};

use crate::memo::{Answer, Asked, found_once};
use crate::places::HasPlaces;
use ax_expressions::{Found, Plan, Plans, Want, compares_as, has_slot, meets};

/// Whether what was found holds.
#[inline(always)]
fn is_wanted(want: Want, found: Found) -> bool
    ensures { result ≡ wanted want found }
{
    match want {
        Want::There => true,
        Want::Compares {
            op,
            signed,
            width,
            number,
        } => match found {
            Found::Number { number: other } => compares_as(op, other, signed, width, number),
            Found::Something => false,
        },
    }
}

/// What the plan of a question says.
#[inline(always)]
#[tactic(auto, using(ax_expressions::proofs::PlanTrees::answering))]
fn question_says<R: HasPlaces>(
    one: &Asked<'_, R>,
    slot: u32,
    question: u32,
    want: Want,
    answers: &mut [Answer],
) -> bool
    requires sound { R.sound one.now.record.now }
    requires answers { Recalls (finds one.now.questions.now (R.entries one.now.record.now)) one.now.number answers.old }
    ensures said { result ≡ says one.now.marked (finds one.now.questions.now (R.entries one.now.record.now)) (asks slot question want) }
    ensures answers { Recalls (finds one.now.questions.now (R.entries one.now.record.now)) one.now.number answers.new }
{
    if !has_slot(&one.marked, slot) {
        return false;
    }
    match found_once(one, question, answers) {
        Some(found) => is_wanted(want, found),
        None => false,
    }
}

/// What a plan of a level says, without a call where it is that of a question, or one of several of which none is asked.
#[cycle(deciding)]
#[inline(always)]
#[tactic(auto, using(ax_expressions::proofs::PlanTrees::deciding))]
fn member_says<R: HasPlaces>(plan: &Plan, one: &Asked<'_, R>, answers: &mut [Answer]) -> bool
    requires sound { R.sound one.now.record.now }
    requires answers { Recalls (finds one.now.questions.now (R.entries one.now.record.now)) one.now.number answers.old }
    ensures said { result ≡ says one.now.marked (finds one.now.questions.now (R.entries one.now.record.now)) (plan_tree plan.now) }
    ensures answers { Recalls (finds one.now.questions.now (R.entries one.now.record.now)) one.now.number answers.new }
{
    match plan {
        Plan::Asks {
            slot,
            question,
            want,
        } => question_says(one, *slot, *question, *want, answers),
        Plan::Several { asked, absent, .. } if !meets(asked, &one.marked) => *absent,
        _ => says(plan, one, answers),
    }
}

/// What several plans say: each of them, or some. The first one that decides is the last one asked.
#[cycle(deciding)]
#[tactic(auto, using(ax_expressions::proofs::PlanLists::several))]
fn many_say<R: HasPlaces>(
    plans: &Plans,
    all: bool,
    one: &Asked<'_, R>,
    answers: &mut [Answer],
) -> bool
    requires sound { R.sound one.now.record.now }
    requires answers { Recalls (finds one.now.questions.now (R.entries one.now.record.now)) one.now.number answers.old }
    ensures said { result ≡ level_says all plans.now one.now.marked (finds one.now.questions.now (R.entries one.now.record.now)) }
    ensures answers { Recalls (finds one.now.questions.now (R.entries one.now.record.now)) one.now.number answers.new }
{
    for plan in plans.as_slice() {
        if member_says(plan, one, answers) != all {
            return !all;
        }
    }
    all
}

/// What a plan says of a record.
#[cycle(deciding)]
#[tactic(auto, using(ax_expressions::proofs::PlanTrees::deciding))]
pub fn says<R: HasPlaces>(plan: &Plan, one: &Asked<'_, R>, answers: &mut [Answer]) -> bool
    requires sound { R.sound one.now.record.now }
    requires answers { Recalls (finds one.now.questions.now (R.entries one.now.record.now)) one.now.number answers.old }
    ensures said { result ≡ says one.now.marked (finds one.now.questions.now (R.entries one.now.record.now)) (plan_tree plan.now) }
    ensures answers { Recalls (finds one.now.questions.now (R.entries one.now.record.now)) one.now.number answers.new }
{
    match plan {
        Plan::Always { holds } => *holds,
        Plan::Asks {
            slot,
            question,
            want,
        } => question_says(one, *slot, *question, *want, answers),
        Plan::Not { plan } => !says(plan, one, answers),
        Plan::Several {
            all,
            asked,
            absent,
            plans,
        } => {
            if !meets(asked, &one.marked) {
                return *absent;
            }
            many_say(plans, *all, one, answers)
        }
    }
}
