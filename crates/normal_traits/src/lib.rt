//! The normalized form of a lock-free structure: a generator, which names a short list of exchanges, and a
//! wrap-up, which reads how far that list got.
#![tactic(auto)]

pub use form::{Found, Normalized, Wrapped};
pub use lists::{Entry, List, Stores};

pub mod form;
pub mod lists;
