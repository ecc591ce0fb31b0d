//! Conversion of data blocks from one edition of a category to another, in which a quantity may have another scale.
#![tactic(auto)]

mod alike;
mod beside;
mod converter;
mod convertible;
mod divisor;
mod error;
mod fixed_values;
mod fronts;
mod mappings;
mod miss;
mod missing;
mod number;
mod octets;
mod passing;
mod splitting;
mod values;
mod watches;

pub use alike::is_alike;
pub use converter::{ConvertedBlock, Converter, convert_tree};
pub use convertible::converting_slots;
pub use error::SplitError;
pub use miss::{Miss, miss_line};
pub use missing::Misses;
pub use number::convert_number;
pub use splitting::{Pieces, split};
pub use values::convert_value;
