//! Category specifications, the records and blocks that are read with them, and the laws of the format: all that `ax_format`
//! has, under this crate's name, and what nothing of the program calls: the laws over its definitions, worked examples of
//! these, and whether a block fits a specification.
#![tactic(auto)]

mod block_fitting;
pub mod edition_examples;
pub mod examples;
pub mod input_examples;
pub mod laws;
pub mod splitting;
pub mod streams;

pub use ax_format::{
    Block, BodyCause, BodyFault, Content, Counter, Entries, Entry, Fixed, Flaw, FlawKind, Flaws,
    Item, Items, Kind, LastPart, Lists, Member, Members, Name, Octets, Part, Parts, Path, Place,
    RawBlock, Record, Records, Scale, Sequence, Sign, Slot, Slots, Spec, Steps, TableText,
    TableTexts, Text, UapSlot, UapSlots, Value, Values, at_name, at_part, at_word, canon_length,
    category_digits, category_of_digits, digit_of, find_frn, find_in_parts, find_member, find_slot,
    fits_kind, octets_of, of_category, subitem_kind,
};
pub use block_fitting::fits;
