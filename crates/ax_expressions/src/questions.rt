//! Questions, each asked under one number however many tests ask it.
ghost use Rattle.std.specs.Prelude.{◌≡◌, [], Some, slice_get, IsTrue, IfSome, IfOk};
ghost use Rattle.ax_expressions.specs.Plans.{Grow};

use crate::plan::{Asking, Question, Questions};
use ax_format::Place;
use indexmap::IndexMap;
use std::alloc::{AllocError, Global};

/// Questions by their numbers, and the number of each by its place. Such a number says where to look: the question under it is
/// compared before it is taken for the same.
#[derive(Drop)]
pub struct Numbering {
    pub questions: Questions,
    standing: IndexMap<Vec<u32>, u32>,
    numbers: IndexMap<Vec<u32>, u32>,
}

impl Numbering {
    /// No question. Takes no memory.
    pub fn new(alloc: Global) -> Numbering
        ensures { result.questions ≡ [] }
    {
        Numbering {
            questions: Questions::new(alloc),
            standing: IndexMap::new(alloc),
            numbers: IndexMap::new(alloc),
        }
    }

    /// The number under which a place was asked so.
    fn get(&self, asking: Asking, key: &[u32]) -> Option<u32> {
        match asking {
            Asking::Standing => self.standing.get(key).copied(),
            Asking::Number => self.numbers.get(key).copied(),
        }
    }

    /// Takes note of the number of a place.
    fn enter(&mut self, asking: Asking, key: Vec<u32>, number: u32) -> Result<(), AllocError>
        ensures { self.new.questions ≡ self.old.questions }
    {
        match asking {
            Asking::Standing => self.standing.insert(key, number)?,
            Asking::Number => self.numbers.insert(key, number)?,
        };
        Ok(())
    }
}

/// The steps of a place, and its slot.
fn key_of(alloc: Global, place: &Place) -> Result<Vec<u32>, AllocError> {
    let mut key = Vec::from_slice(alloc, place.steps.as_slice())?;
    key.push(place.frn)?;
    Ok(key)
}

/// Whether a question asks that at that place.
fn is_same(question: &Question, asking: Asking, place: &Place) -> bool
    ensures { IsTrue result → question.now ≡ record { asking = asking; place = place.now } }
{
    question.asking == asking
        && question.place.frn == place.frn
        && question.place.steps.as_slice() == place.steps.as_slice()
}

/// That number, if the question under it is the same.
fn same_under(
    number: Option<u32>,
    asking: Asking,
    place: &Place,
    questions: &Questions,
) -> Option<u32>
    ensures { IfSome result (λ n. slice_get questions.now n ≡ Some (record { asking = asking; place = place.now })) }
{
    let number = number?;
    let question = questions.get(number)?;
    if is_same(question, asking, place) {
        Some(number)
    } else {
        None
    }
}

/// Adds a question, and answers its number.
fn add(
    alloc: Global,
    asking: Asking,
    place: &Place,
    questions: &mut Questions,
) -> Result<u32, AllocError>
    ensures number { IfOk result (λ n. slice_get questions.new n ≡ Some (record { asking = asking; place = place.now })) }
    ensures grow { Grow questions.old questions.new }
{
    let number = questions.count();
    if number == u32::MAX {
        return Err(AllocError);
    }
    let steps = place.steps.copy(alloc)?;
    let own = Place {
        frn: place.frn,
        steps,
    };
    questions.push(Question { asking, place: own })?;
    Ok(number)
}

/// The number of the question, which is added where it isn't among them.
pub fn number_of(
    alloc: Global,
    asking: Asking,
    place: &Place,
    numbering: &mut Numbering,
) -> Result<u32, AllocError>
    ensures number { IfOk result (λ n. slice_get numbering.new.questions n ≡ Some (record { asking = asking; place = place.now })) }
    ensures grow { Grow numbering.old.questions numbering.new.questions }
{
    let key = key_of(alloc, place)?;
    let known = numbering.get(asking, key.as_slice());
    if let Some(number) = same_under(known, asking, place, &numbering.questions) {
        return Ok(number);
    }
    let number = add(alloc, asking, place, &mut numbering.questions)?;
    numbering.enter(asking, key, number)?;
    Ok(number)
}
