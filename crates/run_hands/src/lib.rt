//! The blocks of every run of the whole phase table, for any client: which block each machine has in hand, which blocks are used,
//! and which ones records have named.
#![tactic(auto)]

pub mod hands;
