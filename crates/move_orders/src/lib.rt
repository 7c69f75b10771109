//! Moves that can follow each other are a run over the commands that they begin, in the order of their seats.
//! So what holds of every run over command files holds of moves that come from anywhere, as from threads.
#![tactic(auto)]

pub mod laws;
