//! Handles for threads: each has the right to make the calls of one seat, one after the other, and its clauses keep
//! the lines of these calls.
#![tactic(auto)]

pub use closing::close;
pub use handle::{Handle, Spent};
pub use opening::{OpenError, open};

pub mod closing;
pub mod handle;
pub mod opening;
