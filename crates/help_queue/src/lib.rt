//! The help queue: how the seat of a published call enters the queue word, and how it leaves it.
#![tactic(auto)]

pub use enter::{Enter, Entering};
pub use remove::{Remove, Removing};

pub mod enter;
pub mod gather;
pub mod heads;
pub mod remove;
