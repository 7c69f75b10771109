//! Runs of one to eight seats over one memory, one atomic step after the other.
#![tactic(auto)]

pub use cores::submitting::NotSubmitted;
pub use cores::{Core, CoreTurn};

pub mod cores;
mod noting;
mod resets;
mod seats;
pub mod submissions;
mod watching;
