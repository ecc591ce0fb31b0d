//! What templates print, read from the front of a line.
ghost use Rattle.std.specs.Prelude.{◌≡◌, ◌+◌, ◌*◌, ◌^◌, ◌<◌, ◌≤◌, ◌++◌, ◌∷◌, length, take, decimal, IsTrue, IfSome};
ghost use Rattle.ax_printed_lines.specs.Runs.{IsRead, IsReadBehind, literal_from};
ghost use Rattle.ax_text_lines.specs.Templates.{template_of, template_width, whole_template};

use crate::names::eight_in_front;
use crate::numbers::run_number;
use ax_text_lines::{TemplateLiteral, TemplateStep, TemplateSteps};

/// The octets that are compared at once.
const AT_ONCE: usize = 7;

/// The most octets of a literal that is compared.
const LONGEST: usize = 14;

/// A literal that is compared, a number and some octets behind it have no more octets.
const STEP_ROOM: usize = 40;

/// Whether the first octets, 1 to 7 of them, are the same.
#[inline(always)]
#[tactic(auto, using(crate::proofs::RunsRead::fronts))]
fn begin_alike(octets: &[u8], wanted: &[u8], count: usize) -> bool
    requires long { (8 ≤ length octets.now) × (8 ≤ length wanted.now) }
    requires count { (0 < count) × (count ≤ 7) }
    ensures { IsTrue result → take count octets.now ≡ take count wanted.now }
{
    let differing = eight_in_front(octets) ^ eight_in_front(wanted);
    differing >> (64 - 8 * count) == 0
}

/// The same of any count. False says nothing of none, and of more than 14.
#[inline(always)]
fn are_first(octets: &[u8], wanted: &[u8], count: usize) -> bool
    requires { (15 ≤ length octets.now) × (15 ≤ length wanted.now) }
    ensures few { IsTrue result → count ≤ 14 }
    ensures same { IsTrue result → take count octets.now ≡ take count wanted.now }
{
    if count == 0 || count > AT_ONCE {
        return are_more(octets, wanted, count);
    }
    begin_alike(octets, wanted, count)
}

// The same of 8 to 14.
#[inline(always)]
fn are_more(octets: &[u8], wanted: &[u8], count: usize) -> bool
    requires { (15 ≤ length octets.now) × (15 ≤ length wanted.now) }
    ensures few { IsTrue result → count ≤ 14 }
    ensures same { IsTrue result → take count octets.now ≡ take count wanted.now }
{
    if count <= AT_ONCE || count > LONGEST {
        return false;
    }
    begin_alike(octets, wanted, AT_ONCE)
        && begin_alike(&octets[AT_ONCE..], &wanted[AT_ONCE..], count - AT_ONCE)
}

// Whether the number has at most that many bits, at most 56.
#[inline(always)]
fn is_below(number: u64, width: u32) -> bool
    requires { width ≤ 56 }
    ensures { IsTrue result → number < 2 ^ width }
{
    number < 1u64 << width
}

/// The number behind the octets of a literal, from octet `passed` of it on, and what comes after it. None comes too where it has more
/// bits than `width`, and where few octets come after it.
#[inline(always)]
fn after_step<'t>(
    octets: &'t [u8],
    literal: &TemplateLiteral,
    passed: usize,
    width: u32,
) -> Option<(u64, &'t [u8])>
    requires passed { (passed ≤ literal.now.count) × (passed ≤ 1) }
    requires width { width ≤ 56 }
    ensures read { IfSome result (λ found. octets.now ≡ literal_from literal.now passed ++ (decimal found.0 ++ found.1.now)) }
    ensures below { IfSome result (λ found. found.0 < 2 ^ width) }
{
    let count = literal.count - passed;
    if octets.len() < STEP_ROOM || !are_first(octets, &literal.octets[passed..], count) {
        return None;
    }
    let (number, left) = run_number(&octets[count..])?;
    if !is_below(number, width) {
        return None;
    }
    Some((number, left))
}

// A number's bits, and others behind them.
#[inline(always)]
fn with_bits(bits: u64, number: u64, width: u32) -> u64
    requires { (width < 64) × (bits * 2 ^ width + number < 2 ^ 64) }
    ensures { result ≡ bits * 2 ^ width + number }
{
    (bits << width) + number
}

/// The numbers of steps, as one number behind the `used` bits of another, and what comes after them.
#[inline(always)]
#[tactic(auto, using(crate::proofs::RunsRead::loops))]
fn after_steps<'t>(
    octets: &'t [u8],
    steps: &[TemplateStep],
    used: u32,
    first: u64,
) -> Option<(u64, &'t [u8])>
    requires few { used + template_width (template_of steps.now) ≤ 56 }
    requires first { first < 2 ^ used }
    ensures { IfSome result (λ found. IsReadBehind (template_of steps.now) first found.0 octets.now found.1.now) }
{
    let mut bits = first;
    let mut left = octets;
    for step in steps {
        let width = step.number?;
        let (number, later) = after_step(left, &step.literal, 0, width)?;
        bits = with_bits(bits, number, width);
        left = later;
    }
    Some((bits, left))
}

/// What comes after a literal, at the space behind it.
#[inline(always)]
fn after_tail<'t>(octets: &'t [u8], tail: &TemplateLiteral) -> Option<&'t [u8]>
    ensures { IfSome result (λ left. octets.now ≡ take tail.now.count tail.now.octets ++ left.now) }
{
    if tail.count == 0 {
        return Some(octets);
    }
    if octets.len() < STEP_ROOM || !are_first(octets, &tail.octets, tail.count) {
        return None;
    }
    Some(&octets[tail.count..])
}

/// What comes after one space, where a token follows.
#[inline(always)]
fn behind_space(octets: &[u8]) -> Option<&[u8]>
    ensures { IfSome result (λ left. octets.now ≡ 32 ∷ left.now) }
{
    let (first, following) = octets.split_first()?;
    let next = following.first()?;
    if *first != b' ' || *next <= b' ' {
        return None;
    }
    Some(following)
}

/// The number in front of a template's other numbers, and what comes after it. The space in front of it isn't there.
#[inline(always)]
fn after_first<'t>(octets: &'t [u8], step: &TemplateStep, width: u32) -> Option<(u64, &'t [u8])>
    requires width { width ≤ 56 }
    ensures read { IfSome result (λ found. 32 ∷ octets.now ≡ take step.now.literal.count step.now.literal.octets ++ (decimal found.0 ++ found.1.now)) }
    ensures below { IfSome result (λ found. found.0 < 2 ^ width) }
{
    if step.literal.count == 0 || step.literal.octets[0] != b' ' {
        return None;
    }
    after_step(octets, &step.literal, 1, width)
}

/// The numbers of a template as one number, and what comes after one space behind it, where a token follows. The template's first
/// space isn't there.
#[inline(always)]
#[tactic(auto, using(crate::proofs::RunsRead::wholes))]
pub fn after_template<'t>(octets: &'t [u8], steps: &TemplateSteps) -> Option<(u64, &'t [u8])>
    requires { template_width (whole_template steps.now) ≤ 56 }
    ensures { IfSome result (λ found. IsRead (whole_template steps.now) found.0 (32 ∷ octets.now) (32 ∷ found.1.now)) }
{
    let (step, later) = steps.steps.as_slice().split_first()?;
    let width = step.number?;
    let (first, following) = after_first(octets, step, width)?;
    let (bits, rest) = after_steps(following, later, width, first)?;
    let left = behind_space(after_tail(rest, &steps.tail)?)?;
    Some((bits, left))
}
