//! The layouts of the words that a run's memory holds: which bits say what.
#![tactic(auto)]

pub use announced::{OpWord, ValueWord};
pub use field::Field;
pub use queues::QueueWord;
pub use records::{RecordPhase, RecordWord};
pub use versioned::VersionedWord;

pub mod announced;
pub mod field;
pub mod owners;
pub mod payloads;
pub mod queues;
pub mod records;
#[cfg(test)]
mod tests;
pub mod versioned;
