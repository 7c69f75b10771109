//! One offered block with any helpers, and the laws of its slow runs.
#![tactic(auto)]

pub use worlds::ExecWorld;

mod helpers;
pub mod laws;
pub mod reads;
#[cfg(test)]
mod tests;
pub mod worlds;
