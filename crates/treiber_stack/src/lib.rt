//! The stack of Treiber in normalized form: `put` makes its node the top's, with the old one behind it, and `take` leads
//! the top past its node.
#![tactic(auto)]

pub use stack::TreiberStack;
pub use treiber_stack_form::{StackSearch, StackWrap};

mod offers;
mod search;
pub mod stack;
mod wrap;
