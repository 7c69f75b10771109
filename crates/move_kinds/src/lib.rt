//! The kinds of moves of a run with helpers: what one move of one seat does to the world of a client and to the blocks
//! that records have named, and what is so of every kind.
#![tactic(auto)]

pub mod kind_laws;
