//! The top calls of the program, over the files and the sink that they are given.
#![tactic(auto)]

pub use client_reports::{Gate, NoGate};
pub use program::nwf_main;
pub use replay::replay_main;
pub use run::run_main;
pub use whole_files::{Failed, Files, FilesInMemory, HostFiles, HostOut, Sink, SinkInMemory};

mod load_words;
pub mod program;
pub mod replay;
pub mod run;
mod scripts;
mod stops;
mod sweep_words;
#[cfg(test)]
mod tests;
mod words;
