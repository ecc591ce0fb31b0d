//! Bodies read by a table, without memory.
#![tactic(auto)]

mod by_rows;
mod compound_rows;
mod each_occurrence;
mod each_part;
mod each_record;
mod extents;
mod finding;
mod fixed_spot;
mod in_item;
mod in_places;
mod in_record;
mod item;
mod members;
mod notes;
mod occurrences;
mod octets;
mod parts;
mod places;
mod placing;
mod record;
mod record_rows;
mod records;
mod spot;
mod start;
mod table;
mod units;
mod value_walk;
mod view;
mod windows;

pub use by_rows::items_by_rows;
pub use each_record::{record_at, record_by_rows, record_noted};
pub use finding::marked_item;
pub use fixed_spot::FixedSpot;
pub use item::ItemView;
pub use notes::Notes;
pub use occurrences::Occurrences;
pub use octets::{walk, walk_record};
pub use parts::PartSlices;
pub use places::{FoundItem, PlacedSlots, Places, Window};
pub use placing::{place_record, place_subitems};
pub use record::RecordView;
pub use record_rows::RecordRows;
pub use records::Records;
pub use view::{BlockView, scan};
