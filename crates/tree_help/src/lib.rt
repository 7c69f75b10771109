//! The help of a flag in a leaf-oriented search tree, by whoever comes by: the steps that a call's own wrap-up
//! makes, and any other call in its place.
#![tactic(auto)]

pub use states::{Flag, Help, HelpDelete, HelpInsert, HelpMark, Helping};

mod delete;
mod either;
mod insert;
mod mark;
pub mod states;
pub mod words;
