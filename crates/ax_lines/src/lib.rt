//! Lines of an input, however its source cuts it, and line commands over them.
//!
//! Lines are separated by line feeds, and the last needs none. The reader gives each line in turn, without its line feed,
//! then the end of the input or the first of two limits that is passed: that of a line and that of the input. A line command
//! judges each line as a whole, and its result is written, up to the first refusal.
#![tactic(auto)]

mod doing;
mod driving;
mod end;
mod feeds;
mod judging;
mod line_error;
mod next_line;
mod reader;
mod reading;
mod stream;
mod text_fault;
mod work;

pub use end::LinesEnd;
pub use line_error::LineError;
pub use reader::LineReader;
pub use stream::run_lines;
pub use text_fault::TextFault;
pub use work::{LineStop, LineWork};
