//! The texts of steps, put into room that is there.
ghost use Rattle.std.specs.Prelude.{◌≡◌, ◌+◌, ◌*◌, ◌≤◌, ◌++◌, length, drop, take, decimal};
ghost use Rattle.ax_bits.specs.Bits.{bits, number_of};
ghost use Rattle.ax_format.specs.InBounds.{IsWidth};
ghost use Rattle.ax_format.specs.Sizes.{longest_body};
ghost use Rattle.ax_text_lines.specs.Templates.{NumberInBounds, TemplateInBounds, bits_from, number_text, number_width, printed, step_text, template_of, template_width, whole_template};

use crate::bit_run::BitRun;
use crate::literal::LITERAL_ROOM;
use crate::room::{put_decimal, put_longest, put_one, put_some};
use crate::run_texts::{ONE_WORD, put_run};
use crate::templates::{TemplateStep, TemplateSteps};
use ax_bits::{bits_at, short_bits_at};

/// The octets that a step has at most: those of its literal, and the digits of a number.
const STEP_ROOM: usize = 72;

/// The most bits of which each number has one digit.
pub(crate) const ONE_DIGIT: u32 = 3;

/// Puts the number in the `width` bits from bit `at` of the body on. The result is the place after it.
#[inline(always)]
fn put_bits(room: &mut [u8], place: usize, width: u32, body: &[u8], at: u32) -> usize
    requires room { place + 40 ≤ length room.old }
    requires width { IsWidth width }
    requires within { at + width ≤ 8 * length body.now }
    ensures front { take result room.new ≡ take place room.old ++ decimal (number_of (take width (drop at (bits body.now)))) }
    ensures few { result ≤ place + 40 }
    ensures whole { length room.new ≡ length room.old }
{
    if width > 56 {
        return put_longest(room, place, bits_at(body, at, width));
    }
    let number = short_bits_at(body, at, width);
    if width <= ONE_DIGIT {
        return put_one(room, place, number as u32);
    }
    put_decimal(room, place, number)
}

/// Puts the number of a step that has one, which stands in the bits from bit `at` of the body on. That is moved after them. The
/// result is the place after it.
#[inline(always)]
#[tactic(auto, using(crate::proofs::StepsPrinted::ways))]
fn put_number_of(
    room: &mut [u8],
    place: usize,
    number: Option<u32>,
    body: &[u8],
    at: &mut u32,
) -> usize
    requires room { place + 40 ≤ length room.old }
    requires bounds { NumberInBounds number }
    requires within { at.old + number_width number ≤ 8 * length body.now }
    requires body { length body.now ≤ longest_body }
    ensures front { take result room.new ≡ take place room.old ++ number_text number (drop at.old (bits body.now)) }
    ensures few { result ≤ place + 40 }
    ensures whole { length room.new ≡ length room.old }
    ensures at { at.new ≡ at.old + number_width number }
{
    let Some(width) = number else {
        return place;
    };
    let here = *at;
    *at += width;
    put_bits(room, place, width, body, here)
}

/// Puts a step, whose number stands in the bits from bit `at` of the body on. That is moved after them. The result is the place
/// after the step.
#[inline(always)]
#[tactic(auto, using(crate::proofs::StepsPrinted::step))]
fn put_step(room: &mut [u8], place: usize, step: &TemplateStep, body: &[u8], at: &mut u32) -> usize
    requires room { place + 72 ≤ length room.old }
    requires bounds { NumberInBounds step.now.number }
    requires within { at.old + number_width step.now.number ≤ 8 * length body.now }
    requires body { length body.now ≤ longest_body }
    ensures front { take result room.new ≡ take place room.old ++ step_text step.now (drop at.old (bits body.now)) }
    ensures few { result ≤ place + 72 }
    ensures whole { length room.new ≡ length room.old }
    ensures at { at.new ≡ at.old + number_width step.now.number }
{
    let end = put_some::<32>(room, place, &step.literal.octets, step.literal.count);
    put_number_of(room, end, step.number, body, at)
}

/// Puts steps, whose numbers stand in the bits from bit `at` of the body on. The result is the place after them.
#[inline(never)]
#[tactic(auto, using(crate::proofs::StepsPrinted::loops))]
fn put_steps(room: &mut [u8], place: usize, steps: &[TemplateStep], body: &[u8], at: u32) -> usize
    requires room { place + 72 * length steps.now ≤ length room.old }
    requires bounds { TemplateInBounds (template_of steps.now) }
    requires within { at + template_width (template_of steps.now) ≤ 8 * length body.now }
    requires body { length body.now ≤ longest_body }
    ensures front { take result room.new ≡ take place room.old ++ printed (template_of steps.now) (drop at (bits body.now)) }
    ensures few { result ≤ place + 72 * length steps.now }
    ensures whole { length room.new ≡ length room.old }
{
    let mut bit = at;
    let mut end = place;
    for step in steps {
        end = put_step(room, end, step, body, &mut bit);
    }
    end
}

/// Puts steps, whose numbers stand in the bits of the run: where these are few, they are taken at once. The result is the place
/// after the steps.
#[inline(always)]
fn put_all_steps(room: &mut [u8], place: usize, steps: &[TemplateStep], run: BitRun<'_>) -> usize
    requires room { place + 72 * length steps.now ≤ length room.old }
    requires bounds { TemplateInBounds (template_of steps.now) }
    requires width { template_width (template_of steps.now) ≡ run.width }
    ensures front { take result room.new ≡ take place room.old ++ printed (template_of steps.now) (bits_from run.entry) }
    ensures few { result ≤ place + 72 * length steps.now }
    ensures whole { length room.new ≡ length room.old }
{
    if run.width == 0 || run.width > ONE_WORD {
        return put_steps(room, place, steps, run.body, run.at);
    }
    put_run(room, place, steps, run)
}

/// The octets that are printed by a template at most.
#[inline(always)]
pub(crate) fn template_room(steps: &TemplateSteps) -> usize
    ensures { result ≡ 72 * length steps.now.steps + 32 }
{
    STEP_ROOM * steps.steps.count() as usize + LITERAL_ROOM
}

/// Puts what is printed by a template of the bits of the run. The result is the place after it.
#[inline(always)]
#[tactic(auto, using(crate::proofs::StepsPrinted::wholes))]
pub(crate) fn put_template(
    room: &mut [u8],
    place: usize,
    steps: &TemplateSteps,
    run: BitRun<'_>,
) -> usize
    requires room { place + (72 * length steps.now.steps + 32) ≤ length room.old }
    requires bounds { TemplateInBounds (whole_template steps.now) }
    requires width { template_width (whole_template steps.now) ≡ run.width }
    ensures front { take result room.new ≡ take place room.old ++ printed (whole_template steps.now) (bits_from run.entry) }
    ensures within { result ≤ length room.new }
{
    let end = put_all_steps(room, place, steps.steps.as_slice(), run);
    put_some::<32>(room, end, &steps.tail.octets, steps.tail.count)
}
