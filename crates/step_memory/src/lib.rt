//! The memory of a run: a list of words of 64 bits, changed and read by one atomic step at a time.
#![tactic(auto)]

pub use cells::Cells;
pub use steps::{Port, Request, Seen};

pub mod cells;
pub mod steps;
