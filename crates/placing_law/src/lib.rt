//! Reports whose calls are placed in a history of changes are linearizable.
#![tactic(auto)]

pub mod laws;
