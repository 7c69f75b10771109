//! What an allowed step does to Ellen's tree, in six kinds, and the proof that each keeps the tree's shape.
#![tactic(auto)]

pub mod laws;
