//! The client's world of every run of the whole phase table: its changes, won exchanges and used blocks, the lists that
//! seats hold and carry, and the lists that records have named; and what holds of them before any law of the client.
#![tactic(auto)]

pub mod identities;
pub mod lists;
pub mod moves;
