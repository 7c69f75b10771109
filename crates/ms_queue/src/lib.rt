//! The queue of Michael and Scott in normalized form: `put` links a node behind the last one, `take` moves
//! the head, and the tail follows; `peek` tells the value behind the head.
#![tactic(auto)]

pub use ms_queue_form::{QueueSearch, QueueWrap};
pub use queue::MsQueue;

mod offers;
pub mod queue;
mod search;
#[cfg(test)]
mod tests;
mod whole;
mod words;
mod wrap;
