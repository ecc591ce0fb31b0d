//! Presence fields drawn.
ghost use Rattle.std.specs.Prelude.{◌≡◌, ◌+◌, ◌-◌, ◌*◌, ◌/◌, ◌<◌, ◌≤◌, ◌++◌, [], ◌∷◌, get_or, not, length, IfOk, OnOk};
ghost use Rattle.ax_bits.specs.Bits.{AreBits};
ghost use Rattle.ax_format.specs.Presence.{first_mark, marks_upto, marks_after, none_marked};
ghost use Rattle.ax_vectors.specs.Made.{mark_made, least_octets, field_of, field_made};
ghost use Rattle.ax_vectors.specs.Making.{Adds};

use crate::bit_string::BitString;
use crate::draws::Draws;
use crate::fixed::push_fx;
use std::alloc::AllocError;

/// The mark of a slot: 1 or 0 by a draw where it is defined, else 0.
#[tactic(auto, using(crate::proofs::FieldOctets::drawn_marks))]
pub(crate) fn draw_mark(is_defined: bool, draws: &mut Draws) -> u8
    ensures made { Adds (mark_made is_defined) [] (result ∷ []) draws.old draws.new }
    ensures bit { result < 2 }
{
    if is_defined {
        (draws.draw() % 2) as u8
    } else {
        0
    }
}

/// Whether a slot is marked.
#[tactic(auto, using(crate::proofs::FieldOctets::any_marked))]
fn is_any_marked(marks: &[u8]) -> bool
    ensures { result ≡ not (none_marked marks.now) }
{
    for mark in marks {
        if *mark != 0 {
            return true;
        }
    }
    false
}

/// The marks after the first seven.
#[tactic(auto, using(crate::proofs::FieldOctets::after_seven))]
fn after_seven(marks: &[u8]) -> &[u8]
    ensures { result.now ≡ marks_after 7 marks.now }
{
    &marks[marks.len().min(7)..]
}

/// How many octets the least presence field with these marks has.
#[tactic(auto, using(crate::proofs::FieldOctets::least))]
fn least_octets(marks: &[u8]) -> u32
    requires { (1 ≤ length marks.now) × (length marks.now ≤ 126) }
    ensures count { result ≡ least_octets marks.now }
    ensures small { result ≤ 18 }
{
    let mut count = 1;
    let mut rest = after_seven(marks);
    while is_any_marked(rest) {
        count += 1;
        rest = after_seven(rest);
    }
    count
}

/// Puts the first seven marks after the bits, 0 for each that isn't there.
#[tactic(auto, using(crate::proofs::FieldOctets::sevens))]
fn push_seven(marks: &[u8], into: &mut BitString) -> Result<(), AllocError>
    requires { AreBits marks.now }
    ensures { OnOk result (into.new ≡ into.old ++ marks_upto 7 marks.now) }
{
    for place in 0..7 {
        push_mark(marks, place, into)?;
    }
    Ok(())
}

/// Puts the mark at a place after the bits, 0 where there is none.
#[tactic(auto)]
fn push_mark(marks: &[u8], place: usize, into: &mut BitString) -> Result<(), AllocError>
    requires { AreBits marks.now }
    ensures { OnOk result (into.new ≡ into.old ++ get_or marks.now place 0 ∷ []) }
{
    match marks.get(place) {
        Some(mark) => into.push(*mark as u128, 1),
        None => into.push(0, 1),
    }
}

/// Puts the presence field of `count` octets with these marks after the bits.
#[tactic(auto, using(crate::proofs::FieldOctets::fields))]
fn push_field(count: u32, marks: &[u8], into: &mut BitString) -> Result<(), AllocError>
    requires { AreBits marks.now }
    ensures { OnOk result (into.new ≡ into.old ++ field_of count marks.now) }
{
    let mut left = count;
    let mut rest = marks;
    while left > 0 {
        left -= 1;
        push_seven(rest, into)?;
        push_fx(1, left, into)?;
        rest = after_seven(rest);
    }
    Ok(())
}

/// Puts a presence field with these marks after the bits: the least one, or one with so many redundant octets as a
/// draw tells where there is room for any.
#[tactic(auto, using(crate::proofs::FieldOctets::which_field))]
pub(crate) fn make_field(
    marks: &[u8],
    draws: &mut Draws,
    into: &mut BitString,
) -> Result<(), AllocError>
    requires bits { AreBits marks.now }
    requires few { (1 ≤ length marks.now) × (length marks.now ≤ 126) }
    ensures { OnOk result (Adds (field_made marks.now) into.old into.new draws.old draws.new) }
{
    let least = least_octets(marks);
    let needed = (marks.len() as u32 + 6) / 7;
    if least < needed {
        let more = draws.draw() % (needed - least + 1);
        return push_field(least + more, marks, into);
    }
    push_field(least, marks, into)
}
