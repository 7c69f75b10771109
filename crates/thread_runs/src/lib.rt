//! Command files run by threads, each through a port of one table of atomic words.
#![tactic(auto)]

pub use gate::{Gate, NoGate};
pub use tries::{Stepwise, Tries};

pub mod gate;
pub mod gather;
pub mod opening;
pub mod run;
mod threads;
pub mod tries;
pub mod worker;
