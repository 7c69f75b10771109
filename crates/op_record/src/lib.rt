//! Announcing a call and moving its record on, as requests on the words of a seat.
#![tactic(auto)]

pub use outcomes::outcome_of;
pub use progress::earlier;
pub use requests::{advance, announce, announce_op, announce_value, complete};

pub mod outcomes;
pub mod progress;
pub mod requests;
#[cfg(test)]
mod tests;
