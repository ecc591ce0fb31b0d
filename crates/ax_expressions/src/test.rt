//! Expressions whose paths are resolved to places over a catalogue.
use crate::expr::Op;
use ax_format::Place;
use ax_lists::Sequence;

/// An element of a specification, and how its number is read.
pub struct Element {
    pub place: Place,
    /// Whether its number is in two's complement.
    pub signed: bool,
    /// In bits.
    pub width: u32,
}

impl Drop for Element {
    fn drop(self) {
        let Element {
            place: _place,
            signed: _signed,
            width: _width,
        } = self;
    }
}

/// Tests in order.
pub type Tests = Sequence<Test>;

/// An expression over a catalogue. None stands for a path that leads nowhere, of which no record has anything.
#[derive(Drop)]
pub enum Test {
    All(Tests),
    Any(Tests),
    Not(Box<Test>),
    Present {
        category: u8,
        place: Option<Place>,
    },
    Is {
        category: u8,
        element: Option<Element>,
        op: Op,
        number: i128,
    },
}
