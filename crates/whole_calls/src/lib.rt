//! A call in one piece: the steps of its machine, made over a port without a machine in memory.
#![tactic(auto)]

pub use steps::{Seeks, Steps};
pub use tries::try_once;

mod lists;
mod outcomes;
pub mod steps;
pub mod tries;
