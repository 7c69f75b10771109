//! Where everything stands in the memory of a run, and the words with which it opens.
#![tactic(auto)]

pub use opening::opening_words;
pub use places::{block_place, node_place, op_place, record_place, reference_to, value_place};

pub mod opening;
pub mod places;
#[cfg(test)]
mod tests;
