use crate::text::Text;
use ax_lists::Sequence;

/// Whether a number is read as it stands or in two's complement.
#[derive(Clone, Copy, Debug, PartialEq, Eq)]
pub enum Sign {
    Unsigned,
    Signed,
}

/// What one unit of an element's number stands for: `num / den` of the unit.
pub struct Scale {
    pub sign: Sign,
    pub num: u64,
    pub den: u64,
    pub unit: Text,
}

impl Drop for Scale {
    fn drop(self) {
        let Scale {
            sign: _sign,
            num: _num,
            den: _den,
            unit: _unit,
        } = self;
    }
}

/// A number of a table and its text.
pub struct TableText {
    pub number: u64,
    pub text: Text,
}

impl Drop for TableText {
    fn drop(self) {
        let TableText {
            number: _number,
            text: _text,
        } = self;
    }
}

/// The entries of a table, in the file's order.
pub type TableTexts = Sequence<TableText>;

/// What an element's number means. It describes and never refuses: every bit pattern is a value.
pub enum Content {
    /// Nothing is said of the number.
    Raw,
    /// Texts for some of the numbers.
    Table(TableTexts),
    /// Characters of eight bits.
    Ascii,
    /// Characters of six bits, as in an aircraft identification.
    Icao,
    /// Digits of three bits.
    Octal,
    /// A whole number.
    Integer(Sign),
    /// A multiple of a unit.
    Quantity(Scale),
}

impl Drop for Content {
    fn drop(self) {
        match self {
            Content::Raw => {}
            Content::Table(_entries) => {}
            Content::Ascii => {}
            Content::Icao => {}
            Content::Octal => {}
            Content::Integer(_sign) => {}
            Content::Quantity(_scale) => {}
        }
    }
}
