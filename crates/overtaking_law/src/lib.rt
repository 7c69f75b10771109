//! How often a published call is overtaken: the returns of other seats while it waits.
#![tactic(auto)]

pub use overtaking::{greatest_overtaken, overtaken};

mod kinds;
mod open_calls;
pub mod overtaking;
#[cfg(test)]
mod tests;
