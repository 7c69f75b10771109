//! What every machine knows of the client's world in every run of the whole phase table, and of which kind each move is.
#![tactic(auto)]

pub mod move_laws;
