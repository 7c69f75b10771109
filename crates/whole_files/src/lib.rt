//! Whole files of the outside, each read to its end or to the byte after a limit, and sinks that take a text whole or, up
//! to a fault, its first bytes.
#![tactic(auto)]

pub use outside::{Failed, Files, FilesInMemory, HostFiles, HostOut, Sink, SinkInMemory};
pub use reading::{ReadError, read_file};
pub use writing::write_all;

pub mod outside;
pub mod reading;
pub mod writing;
