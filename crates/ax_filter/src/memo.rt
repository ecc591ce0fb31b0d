//! What questions found in a record, each looked for once.
ghost use Rattle.std.specs.Prelude.{◌≡◌, ℕ, Option, IfOk};
ghost use Rattle.ax_expressions.specs.Plans.{finds, found_in};
ghost use Rattle.ax_filter.specs.Memos.{NoneLater, Recalls};
ghost use Rattle.ax_expressions.specs.declared.plan.Found.{Found};

use crate::places::HasPlaces;
use ax_expressions::{Asking, Found, Question};
use ax_fspec::Presence;
use std::alloc::{AllocError, Global};

/// A record that is asked: its marked slots, its number among the records that were asked under the same answers, and the questions
/// by their numbers.
#[derive(Drop)]
pub struct Asked<'r, R> {
    pub record: &'r R,
    pub marked: Presence,
    pub number: u32,
    pub questions: &'r [Question],
}

/// What a question found in the latest record that it was asked of, with that record's number.
#[derive(Clone, Copy)]
pub struct Answer {
    pub number: u32,
    pub found: Option<Found>,
}

/// So many answers, each of record 0, which is none.
fn no_answers(alloc: Global, count: usize) -> Result<Vec<Answer>, AllocError>
    ensures { IfOk result (λ made. NoneLater 0 made.items) }
{
    let none = Answer {
        number: 0,
        found: None,
    };
    vec![in alloc; none; count]
}

/// What the questions of a filter found: room for an answer to each, taken once and lent for one record after another, so that what
/// several tests ask is looked for once a record. Records have numbers from 1 on, and an answer is one of the record whose number it
/// has: so nothing is cleared for a new record. At the greatest number all answers are forgotten, and the next record is 1 again.
pub struct Memo {
    pub(crate) answers: Vec<Answer>,
    /// The number of the latest record.
    pub(crate) number: u32,
    ghost none_later: { NoneLater number answers.items },
}

impl Drop for Memo {
    fn drop(self) {
        let Memo {
            answers: _answers,
            number: _number,
        } = self;
    }
}

impl Memo {
    /// Room for so many answers.
    pub(crate) fn of(alloc: Global, count: usize) -> Result<Memo, AllocError> {
        let answers = no_answers(alloc, count)?;
        Ok(Memo { answers, number: 0 })
    }

    /// Goes on to another record, to which there is no answer yet.
    #[inline]
    pub(crate) fn go_on(&mut self)
        ensures { (found : ℕ → Option Found) → Recalls found self.new.number self.new.answers.items }
    {
        if self.number == u32::MAX {
            forget(&mut self.answers);
            self.number = 0;
        }
        self.number += 1;
    }
}

/// Makes all answers those of record 0.
#[cold]
fn forget(answers: &mut [Answer])
    ensures { NoneLater 0 answers.new }
{
    answers.fill(Answer {
        number: 0,
        found: None,
    });
}

/// What a question finds in a record.
#[inline]
fn found_in<R: HasPlaces>(question: &Question, one: &R) -> Option<Found>
    requires { R.sound one.now }
    ensures { result ≡ found_in (R.entries one.now) question.now }
{
    match question.asking {
        Asking::Number => match one.number_at(&question.place) {
            Some(number) => Some(Found::Number { number }),
            None => None,
        },
        Asking::Standing => {
            if one.has(&question.place) {
                Some(Found::Something)
            } else {
                None
            }
        }
    }
}

/// What the question of a number finds in a record.
#[inline]
fn find<R: HasPlaces>(one: &Asked<'_, R>, question: u32) -> Option<Found>
    requires { R.sound one.now.record.now }
    ensures { result ≡ finds one.now.questions.now (R.entries one.now.record.now) question }
{
    match one.questions.get(question as usize) {
        Some(question) => found_in(question, one.record),
        None => None,
    }
}

/// The same, looked for where its answer isn't known; it is kept where there is room for it.
#[inline(always)]
pub fn found_once<R: HasPlaces>(
    one: &Asked<'_, R>,
    question: u32,
    answers: &mut [Answer],
) -> Option<Found>
    requires sound { R.sound one.now.record.now }
    requires answers { Recalls (finds one.now.questions.now (R.entries one.now.record.now)) one.now.number answers.old }
    ensures found { result ≡ finds one.now.questions.now (R.entries one.now.record.now) question }
    ensures answers { Recalls (finds one.now.questions.now (R.entries one.now.record.now)) one.now.number answers.new }
{
    let place = question as usize;
    if place >= answers.len() {
        return find(one, question);
    }
    let known = answers[place];
    if known.number == one.number {
        return known.found;
    }
    let found = find(one, question);
    answers[place] = Answer {
        number: one.number,
        found,
    };
    found
}
