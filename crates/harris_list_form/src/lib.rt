//! Sorted linked lists in normalized form, as definitions, and the proof that their steps amount to a set.
#![tactic(auto)]

pub use states::{Aim, Left, ListSearch, ListWrap, Sought};

pub mod states;
