//! Command files that are made of a seed: the same files for the same seed, whoever makes them.
#![tactic(auto)]

pub use files::generate;
pub use numbers::Numbers;

pub mod files;
pub mod laws;
pub mod numbers;
#[cfg(test)]
mod tests;
