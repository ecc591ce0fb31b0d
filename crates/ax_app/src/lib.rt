//! The program's one call: it takes the words, the library, the source and the sinks, and does all that `asterix` does. The
//! block loop of the commands that take no memory for a block stands here too.
#![tactic(auto)]

mod channels;
mod driving;
mod each_block;
mod editions;
mod end;
mod expanding;
mod gateway;
mod job;
mod loading;
mod outcomes;
mod tasks;
mod work;

pub use ax_command::{Cause, FilterFault, InputFault, Outcome, SpecFault, TextFault};
pub use ax_words::{Line, read_words};
pub use driving::drive;
pub use end::DriveEnd;
pub use gateway::run;
pub use job::Job;
pub use work::Work;
