//! Data blocks of an input, however its source cuts it, and block commands over them.
//!
//! A block is CAT, LEN in two octets, and a body. The reader gives each whole block in turn, then the end of the input
//! or the first fault of framing, with its bit. A block command judges each block as a whole, and its result is written, up to
//! the first fault.
#![tactic(auto)]

mod driving;
mod end;
mod framing;
mod line;
mod making;
mod next_error;
mod numbered;
mod reader;
mod stream;
mod work;

pub use driving::drive_blocks;
pub use end::{Cause, InputFault, StreamEnd};
pub use line::write_fault_line;
pub use making::BlockStop;
pub use next_error::NextError;
pub use numbered::NumberedBlock;
pub use reader::BlockReader;
pub use stream::run_blocks;
pub use work::{BlockWork, WorkStop, write_piece};
