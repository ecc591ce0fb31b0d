//! The way to a path of the old edition, and the place that slot numbers tell.
ghost use Rattle.std.specs.Prelude.{◌≡◌, ◌++◌, ◌∷◌, [], IfOk, OnOk};
ghost use Rattle.ax_format.specs.Paths.{at};
ghost use Rattle.ax_format.specs.Placed.{place_from};

use ax_format::{Name, Place, Steps, Text, at_name};
use std::alloc::{AllocError, Global};

/// The way to a path of the old edition: its text, and the slot numbers on it, the first of which is an FRN.
pub(crate) struct Way {
    pub(crate) text: Text,
    pub(crate) numbers: Steps,
}

impl Drop for Way {
    fn drop(self) {
        let Way {
            text: _text,
            numbers: _numbers,
        } = self;
    }
}

/// Appends a number. A list of more than 2^32 - 1 numbers is a want of memory.
fn push_number(numbers: &mut Steps, number: u32) -> Result<(), AllocError>
    ensures { OnOk result (numbers.new ≡ numbers.old ++ number ∷ []) }
{
    if numbers.count() == u32::MAX {
        return Err(AllocError);
    }
    numbers.push(number)
}

/// The numbers and one more.
pub(crate) fn with_number(alloc: Global, numbers: &Steps, number: u32) -> Result<Steps, AllocError>
    ensures { IfOk result (λ made. made ≡ numbers.now ++ number ∷ []) }
{
    let mut made = numbers.copy(alloc)?;
    push_number(&mut made, number)?;
    Ok(made)
}

fn steps_of(alloc: Global, numbers: &[u32]) -> Result<Steps, AllocError>
    ensures { IfOk result (λ made. made ≡ numbers.now) }
{
    let mut made = Steps::new(alloc);
    for number in numbers {
        push_number(&mut made, *number)?;
    }
    Ok(made)
}

/// The place of slot numbers.
pub(crate) fn place_of(alloc: Global, numbers: &Steps) -> Result<Place, AllocError>
    ensures { IfOk result (λ made. made ≡ place_from numbers.now) }
{
    match numbers.as_slice().split_first() {
        None => Ok(Place {
            frn: 0,
            steps: Steps::new(alloc),
        }),
        Some((frn, steps)) => Ok(Place {
            frn: *frn,
            steps: steps_of(alloc, steps)?,
        }),
    }
}

impl Way {
    /// The way on to the slot of that name and number.
    pub(crate) fn onto(&self, alloc: Global, name: &Name, number: u32) -> Result<Way, AllocError>
        ensures text { IfOk result (λ way. way.text ≡ at self.now.text name.now) }
        ensures numbers { IfOk result (λ way. way.numbers ≡ self.now.numbers ++ number ∷ []) }
    {
        Ok(Way {
            text: at_name(alloc, &self.text, name)?,
            numbers: with_number(alloc, &self.numbers, number)?,
        })
    }
}
