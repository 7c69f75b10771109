//! The engine: what a seat does, one atomic step after the other, for any structure in normalized form.
#![tactic(auto)]

pub use call::Call;
pub use contention::Contention;
pub use fast::{fill_for, spend};
pub use help::{Help, Helping, Work, WorkTurn};
pub use machine::Machine;
pub use phases::{Announcing, Applying, Generating, Phase};
pub use plays::{Made, Plays};
pub use setup::{Setup, Turn};
pub use tried::Tried;

pub mod call;
pub mod contention;
mod doing;
mod executing;
mod fast;
pub mod help;
mod help_words;
mod helping;
pub mod lines;
pub mod machine;
pub mod phases;
pub mod plays;
mod requests;
mod searching;
pub mod setup;
mod slow;
mod steps;
pub mod stores;
#[cfg(test)]
mod tests;
pub mod tried;
