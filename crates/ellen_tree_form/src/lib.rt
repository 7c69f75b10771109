//! Ellen's leaf-oriented search tree in normalized form, as definitions, with what follows from its shape, and what every
//! step keeps of marks, flags and helps.
#![tactic(auto)]

pub use states::{Passed, TreeSearch};

pub mod states;
