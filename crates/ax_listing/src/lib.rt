//! Bodies as listings, shown while their octets are read: no value is made. `show` as the work of a block command.
#![tactic(auto)]

mod block;
mod body;
mod contents;
mod element;
mod fixed;
mod kinds;
mod masked_items;
mod numbers;
mod paths;
mod position;
mod records;
mod room;
mod stop;
mod tables;
mod units;
mod work;

pub use body::show_records;
pub use work::ShowViews;
