//! Kinds with their tables' entries by number.
ghost use Rattle.std.specs.Prelude.{◌≡◌};
ghost use Rattle.ax_held_kinds.specs.HeldFixed.{held_members};
ghost use Rattle.ax_format.specs.Lengths.{capped};
ghost use Rattle.ax_format.specs.Widths.{members_width};

use crate::by_number::EntriesByNumber;
use crate::lines::{HeldQuantity, ShortElement};
use ax_format::{Content, Counter, LastPart, Name};
use ax_lists::Sequence;

/// What an element's number means.
#[derive(Drop)]
pub enum HeldContent<'s> {
    /// A content that is looked at as a whole: any but a table of many entries and a quantity.
    Plain(&'s Content),
    /// A table of many entries.
    Table(EntriesByNumber<'s>),
    /// A quantity.
    Quantity(HeldQuantity<'s>),
}

/// The members of a group or a part, in order.
pub type HeldMembers<'s> = Sequence<HeldMember<'s>>;

/// A run of bits of a known length.
#[cycle(fixed)]
#[derive(Drop)]
pub enum HeldFixed<'s> {
    Element {
        width: u32,
        content: HeldContent<'s>,
    },
    Group(HeldMembers<'s>),
}

/// A member of a group or a part. A spare has a width in bits and no name.
#[cycle(fixed)]
#[derive(Drop)]
pub enum HeldMember<'s> {
    Named { name: Name, fixed: HeldFixed<'s> },
    /// An element of few bits, with its lines.
    Short(ShortElement<'s>),
    Spare { width: u32 },
}

/// A part of an extended or closed item, with the width of its members in bits, capped at 2^64 - 1 where it is more.
#[derive(Drop)]
pub struct HeldPart<'s> {
    pub members: HeldMembers<'s>,
    pub(crate) width: u64,
    ghost wide: { width ≡ capped (members_width (held_members members)) },
}

/// The parts of an extended item, in order.
pub type HeldParts<'s> = Sequence<HeldPart<'s>>;

/// The slots of a compound or of a UAP, in order; the first is slot 1.
pub type HeldSlots<'s> = Sequence<HeldSlot<'s>>;

/// The kind of an item, a subitem or a counted body.
#[cycle(kind)]
#[derive(Drop)]
pub enum HeldKind<'s> {
    Fixed(HeldFixed<'s>),
    Extended {
        last: LastPart,
        parts: HeldParts<'s>,
    },
    Counted {
        counter: Counter,
        inner: Box<HeldKind<'s>>,
    },
    ByFx(HeldFixed<'s>),
    Explicit,
    Compound(HeldSlots<'s>),
}

/// A slot of a compound or of a UAP.
#[cycle(kind)]
#[derive(Drop)]
pub enum HeldSlot<'s> {
    Spare,
    Sub { name: Name, kind: HeldKind<'s> },
}
