//! The plain codec: octets to records and back, over the trees of a specification.
#![tactic(auto)]

mod counter;
mod decode;
mod encode;
mod error;
mod explicit;
mod fixed;
mod kinds;
mod lengths;
mod marks;
mod parts_left;
mod records;
mod slots;
mod units;
mod write_kinds;
mod write_records;
mod write_units;

pub use ax_fspec::has_fx;
pub use counter::counter_at;
pub use decode::{decode_block, decode_kind, decode_record};
pub use encode::{encode_block, encode_of_length, write_front, write_opaque};
pub use error::{DecodeError, EncodeError};
pub use explicit::explicit_content;
pub use kinds::{decode_marked, octet_at};
pub use lengths::length_over;
pub use marks::entry_marks;
pub use parts_left::{PartsLeft, SizedPart};
pub use records::record_mask;
pub use slots::slots_mask;
pub use units::unit_end;
pub use write_kinds::write_entries;
