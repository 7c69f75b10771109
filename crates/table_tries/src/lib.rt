//! Tries of the clients' calls in one piece, on the table of a run with threads.
#![tactic(auto)]

pub use seated::{Seated, Whole};

mod buckets;
mod list;
mod queue;
pub mod seated;
mod tree;
