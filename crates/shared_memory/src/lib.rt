//! The memory of a run with threads, in one table of atomic words. The rule of the table is that its words are
//! those of a run. So a step of one thread is a move of that run, and what holds of every run holds here.
#![tactic(auto)]

pub use port::{SeatPort, Shared, Totals};

pub mod port;
pub mod rule;
pub mod steps;
pub mod view;
