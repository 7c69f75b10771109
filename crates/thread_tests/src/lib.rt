//! Worked runs on one table of atomic words: ports that one thread drives by hand, and threads that really work
//! beside each other.
#![tactic(auto)]

#[cfg(test)]
mod handle_calls;
pub mod in_threads;
#[cfg(test)]
mod ports;
#[cfg(test)]
mod tests;
#[cfg(test)]
mod threads;
