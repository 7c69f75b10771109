//! Who tells that no block is left, in every run of the whole phase table, for any client with its laws: each of them knows that
//! none is.
#![tactic(auto)]

pub mod refusal_laws;
