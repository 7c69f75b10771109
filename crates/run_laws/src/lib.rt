//! Laws of every run: what holds of the seats, the files, the ticks and the claims after any moves that can
//! follow each other.
#![tactic(auto)]

pub mod claims;
pub mod files;
pub mod premises;
pub mod seats;
pub mod ticks;
