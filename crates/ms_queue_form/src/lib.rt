//! The queue in normalized form, as definitions, and the proof that its steps amount to a queue.
#![tactic(auto)]

pub use states::{QueueSearch, QueueWrap};

pub mod states;
