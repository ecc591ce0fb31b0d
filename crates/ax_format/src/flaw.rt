use crate::text::Text;
use ax_lists::Sequence;

/// Why a specification can't be used.
#[derive(Clone, Copy, Debug, PartialEq, Eq)]
pub enum FlawKind {
    /// An earlier item has the name.
    DuplicateItem,
    /// An earlier member of the group or the extended item, or an earlier slot of the compound, has the name.
    DuplicateName,
    /// No item has the name of a slot of the UAP.
    UnknownInUap,
    /// An earlier slot of the UAP has the name.
    RepeatedInUap,
    /// A group without members, an extended item without parts, a compound or a UAP without slots.
    Empty,
    /// A compound or a UAP of more than 126 slots.
    TooManySlots,
    /// An element or a spare of 0 bits or of more than 128, or a quantity of more than 64.
    BadWidth,
    /// An item or a subitem of a fixed kind isn't whole octets.
    NotOctets,
    /// A part, with the FX bit behind it where it has one, isn't whole octets.
    PartNotOctets,
    /// A counted body, or a by-FX body and its FX bit, isn't whole octets.
    BodyNotOctets,
    /// The numerator or the denominator of a quantity is 0.
    BadScale,
    /// The width of a string isn't a multiple of its characters' width.
    BadStringWidth,
    /// A fixed kind or a part of more than 524,256 bits.
    TooWide,
}

/// A flaw of a specification and its place: the category in three digits and the names down to it, joined
/// by `/`.
pub struct Flaw {
    pub kind: FlawKind,
    pub path: Text,
}

impl Drop for Flaw {
    fn drop(self) {
        let Flaw {
            kind: _kind,
            path: _path,
        } = self;
    }
}

/// The flaws of a specification, in their order.
pub type Flaws = Sequence<Flaw>;
