//! Category specifications, the records and blocks that are read with them, and the definitions of the format.
//!
//! A specification is a tree: items of a kind each, and the user application profile (UAP) that gives each
//! item its field reference number (FRN). A record is a tree too: the marked items with their values. Octets
//! are no part of either; `specs/` says which bits spell which value.
#![tactic(auto)]

mod canonical_length;
mod content;
mod copying;
mod digits;
mod fault;
mod fitting;
mod flaw;
mod kind;
mod lookup;
mod name;
mod naming;
mod path;
mod path_text;
mod place;
mod record;
mod spec;
mod text;
mod value;
mod width;

pub use ax_lists::Sequence;
pub use canonical_length::{canon_length, octets_of};
pub use content::{Content, Scale, Sign, TableText, TableTexts};
pub use digits::{category_digits, category_of_digits, digit_of};
pub use fault::{BodyCause, BodyFault};
pub use fitting::fits_kind;
pub use flaw::{Flaw, FlawKind, Flaws};
pub use kind::{Counter, Fixed, Kind, LastPart, Member, Members, Part, Parts, Slot, Slots};
pub use lookup::subitem_kind;
pub use name::Name;
pub use naming::{find_frn, find_in_parts, find_member, find_slot};
pub use path::Path;
pub use path_text::{at_name, at_part, at_word, of_category};
pub use place::{Place, Steps};
pub use record::{Block, RawBlock, Record, Records};
pub use spec::{Item, Items, Spec, UapSlot, UapSlots};
pub use text::Text;
pub use value::{Entries, Entry, Lists, Octets, Value, Values};
