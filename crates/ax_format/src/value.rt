use ax_lists::Sequence;

/// Octets of an explicit content or of an opaque block.
pub type Octets = Sequence<u8>;

/// Values in order: one for each member of a group or a part, spares included, or one for each occurrence.
pub type Values = Sequence<Value>;

/// The values of the parts that are present, in order.
pub type Lists = Sequence<Values>;

/// The marked slots of a compound or a record with their values, in ascending order.
pub type Entries = Sequence<Entry>;

/// The value of an item, a subitem, a member or an occurrence.
#[cycle(value)]
#[derive(Drop)]
pub enum Value {
    /// Of an element or a spare: its bits as a number.
    Number(u128),
    /// Of a group: one value for each member, spares included.
    Group(Values),
    /// Of an extended item: one list for each part that is there, with a value for each member, spares included.
    Extended(Lists),
    /// Of a counted or a by-FX item: one value for each occurrence.
    Repeat(Values),
    /// Of an explicit item: the content without the length octet.
    Octets(Octets),
    /// Of a compound: the marked slots.
    Compound(Entries),
}

/// A marked slot and its value. Slots are numbered from 1; in a record the slot is the field reference number.
#[cycle(value)]
#[derive(Drop)]
pub struct Entry {
    pub slot: u32,
    pub value: Value,
}
