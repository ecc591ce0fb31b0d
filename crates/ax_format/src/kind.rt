use crate::content::Content;
use crate::name::Name;
use ax_lists::Sequence;

/// The members of a group or a part, in order.
pub type Members = Sequence<Member>;

/// A run of bits of a known length: an element of 1 to 128 bits, or a group, which is its members one after
/// another.
#[cycle(fixed)]
#[derive(Drop)]
pub enum Fixed {
    Element { width: u32, content: Content },
    Group(Members),
}

/// A member of a group or a part. A spare has a width in bits and no name; its bits are kept.
#[cycle(fixed)]
#[derive(Drop)]
pub enum Member {
    Named { name: Name, fixed: Fixed },
    Spare { width: u32 },
}

/// A part of an extended item: its members. In the octets an FX bit follows them, but for the last part of a closed item
/// (`LastPart::WithoutFx`).
pub struct Part {
    pub members: Members,
}

impl Drop for Part {
    fn drop(self) {
        let Part { members: _members } = self;
    }
}

/// The parts of an extended item, in order.
pub type Parts = Sequence<Part>;

/// The slots of a compound, in order; the first is slot 1.
pub type Slots = Sequence<Slot>;

/// How many octets the counter of a counted item has.
#[derive(Clone, Copy, Debug, PartialEq, Eq)]
pub enum Counter {
    One,
    Two,
}

/// Whether the last part of an extended item has an FX bit. Each other part has one.
#[derive(Clone, Copy, Debug, PartialEq, Eq)]
pub enum LastPart {
    WithFx,
    WithoutFx,
}

/// The kind of an item, a subitem or a counted body.
#[cycle(kind)]
#[derive(Drop)]
pub enum Kind {
    /// A fixed run of whole octets.
    Fixed(Fixed),
    /// One or more parts, each followed by FX: 1 exactly where another part follows. The last part may have no FX.
    Extended { last: LastPart, parts: Parts },
    /// A counter REP, in two octets the most significant first, then that many occurrences of the inner kind: 0 to 255
    /// by one octet, 0 to 65,535 by two.
    Counted { counter: Counter, inner: Box<Kind> },
    /// One or more occurrences, each followed by FX: 1 exactly where another occurrence follows.
    ByFx(Fixed),
    /// One octet with the field's total length, itself included, then the content of 0 to 254 octets.
    Explicit,
    /// A presence field over the slots, then the marked subitems in order.
    Compound(Slots),
}

/// A slot of a compound.
#[cycle(kind)]
#[derive(Drop)]
pub enum Slot {
    Spare,
    Sub { name: Name, kind: Kind },
}
