//! Executing the list that a generator named: by its own seat, or as a block's, by any number of helpers.
#![tactic(auto)]

pub use block_read::BlockRead;
pub use fast_run::{Execution, FastRun};
pub use slow_run::SlowRun;

pub mod block_read;
pub mod fast_run;
pub mod slow_run;
#[cfg(test)]
mod tests;
