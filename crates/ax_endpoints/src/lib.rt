//! The outside of the gateway: what it reads from, writes to and loads its files from.
//!
//! A trait says what an object of the outside holds or has left, where it tells that, and counts its faults.
//! An adapter over a real reader, writer or folder tells nothing of its content.
#![tactic(auto)]

mod folder_library;
mod libraries;
mod limits;
mod read_source;
mod sinks;
mod sources;
mod text;
mod whole;
mod write_sink;

pub use folder_library::FolderLibrary;
pub use libraries::{Library, LoadError};
pub use limits::LONGEST_INPUT;
pub use read_source::ReadSource;
pub use sinks::{Sink, SinkFailed};
pub use sources::{Source, SourceFailed};
pub use text::write_text;
pub use whole::{fill, write_all_of};
pub use write_sink::WriteSink;
