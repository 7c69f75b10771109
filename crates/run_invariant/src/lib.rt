//! The invariant of runs with helpers is kept by every move, so it holds of every run.
#![tactic(auto)]

pub mod runs;
