//! The stack of Treiber in normalized form, as definitions, and the proof that its steps amount to a stack.
#![tactic(auto)]

pub use states::{StackSearch, StackWrap};

pub mod states;
