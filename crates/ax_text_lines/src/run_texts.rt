//! The texts of steps whose numbers stand in a few octets, taken out of one word.
ghost use Rattle.std.specs.Prelude.{◌≡◌, ◌+◌, ◌-◌, ◌*◌, ◌^◌, ◌<◌, ◌≤◌, ◌++◌, length, drop, take, decimal};
ghost use Rattle.ax_bits.specs.Bits.{number_of, word};
ghost use Rattle.ax_text_lines.specs.Templates.{NumberInBounds, TemplateInBounds, bits_from, number_text, number_width, printed, step_text, template_of, template_width};

use crate::bit_run::BitRun;
use crate::room::{put_decimal, put_one, put_some};
use crate::step_texts::ONE_DIGIT;
use crate::templates::TemplateStep;
use ax_bits::short_bits_at;

/// The bits of a run that is taken out of one word at most.
pub(crate) const ONE_WORD: u32 = 56;

/// The bits of a run as the first ones of a word, and others after them: where eight octets are there, as many as a word is taken
/// for, so that no shift depends on the width.
#[inline(always)]
#[tactic(auto, using(crate::proofs::RunsPrinted::firsts))]
fn first_in_word(run: BitRun<'_>) -> u64
    requires width { (1 ≤ run.width) × (run.width ≤ 56) }
    ensures { take run.entry.width (word 64 result) ≡ take run.entry.width (bits_from run.entry) }
{
    let first = (run.at / 8) as usize;
    if first + 8 <= run.body.len() {
        return short_bits_at(run.body, run.at, ONE_WORD) << (64 - ONE_WORD);
    }
    short_bits_at(run.body, run.at, run.width) << (64 - run.width)
}

/// Puts the number in the first `width` bits of a word. The result is the place after it.
#[inline(always)]
fn put_first_bits(room: &mut [u8], place: usize, width: u32, run: u64) -> usize
    requires room { place + 40 ≤ length room.old }
    requires width { (1 ≤ width) × (width ≤ 56) }
    ensures front { take result room.new ≡ take place room.old ++ decimal (number_of (take width (word 64 run))) }
    ensures few { result ≤ place + 40 }
    ensures whole { length room.new ≡ length room.old }
{
    let number = run >> (64 - width);
    if width <= ONE_DIGIT {
        return put_one(room, place, number as u32);
    }
    put_decimal(room, place, number)
}

/// Puts the number of a step that has one, which stands in the first bits of the word. They are moved out of it. The result is
/// the place after the number.
#[inline(always)]
#[tactic(auto, using(crate::proofs::RunsPrinted::ways))]
fn put_first_number(room: &mut [u8], place: usize, number: Option<u32>, run: &mut u64) -> usize
    requires room { place + 40 ≤ length room.old }
    requires bounds { NumberInBounds number }
    requires few { number_width number ≤ 56 }
    ensures front { take result room.new ≡ take place room.old ++ number_text number (word 64 run.old) }
    ensures few { result ≤ place + 40 }
    ensures whole { length room.new ≡ length room.old }
    ensures moved { take (64 - number_width number) (word 64 run.new) ≡ drop (number_width number) (word 64 run.old) }
{
    let Some(width) = number else {
        return place;
    };
    let whole = *run;
    *run = whole << width;
    put_first_bits(room, place, width, whole)
}

/// Puts a step, whose number stands in the first bits of the word. They are moved out of it. The result is the place after the
/// step.
#[inline(always)]
#[tactic(auto, using(crate::proofs::StepsPrinted::step))]
fn put_step_of_word(room: &mut [u8], place: usize, step: &TemplateStep, run: &mut u64) -> usize
    requires room { place + 72 ≤ length room.old }
    requires bounds { NumberInBounds step.now.number }
    requires few { number_width step.now.number ≤ 56 }
    ensures front { take result room.new ≡ take place room.old ++ step_text step.now (word 64 run.old) }
    ensures few { result ≤ place + 72 }
    ensures whole { length room.new ≡ length room.old }
    ensures moved { take (64 - number_width step.now.number) (word 64 run.new) ≡ drop (number_width step.now.number) (word 64 run.old) }
{
    let end = put_some::<32>(room, place, &step.literal.octets, step.literal.count);
    put_first_number(room, end, step.number, run)
}

/// Puts steps, whose numbers stand in the first bits of the word. The result is the place after them.
#[inline(always)]
#[tactic(auto, using(crate::proofs::RunsPrinted::loops))]
fn put_steps_of_word(room: &mut [u8], place: usize, steps: &[TemplateStep], run: u64) -> usize
    requires room { place + 72 * length steps.now ≤ length room.old }
    requires bounds { TemplateInBounds (template_of steps.now) }
    requires few { template_width (template_of steps.now) ≤ 56 }
    ensures front { take result room.new ≡ take place room.old ++ printed (template_of steps.now) (word 64 run) }
    ensures few { result ≤ place + 72 * length steps.now }
    ensures whole { length room.new ≡ length room.old }
{
    let mut left = run;
    let mut end = place;
    for step in steps {
        end = put_step_of_word(room, end, step, &mut left);
    }
    end
}

/// Puts steps, whose numbers stand in the bits of the run: these are taken at once. The result is the place after the steps.
#[inline(always)]
pub(crate) fn put_run(
    room: &mut [u8],
    place: usize,
    steps: &[TemplateStep],
    run: BitRun<'_>,
) -> usize
    requires room { place + 72 * length steps.now ≤ length room.old }
    requires bounds { TemplateInBounds (template_of steps.now) }
    requires width { (1 ≤ run.width) × (run.width ≤ 56) × (template_width (template_of steps.now) ≡ run.width) }
    ensures front { take result room.new ≡ take place room.old ++ printed (template_of steps.now) (bits_from run.entry) }
    ensures few { result ≤ place + 72 * length steps.now }
    ensures whole { length room.new ≡ length room.old }
{
    put_steps_of_word(room, place, steps, first_in_word(run))
}
