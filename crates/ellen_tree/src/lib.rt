//! Ellen's leaf-oriented search tree in normalized form: a map whose keys stand in the leaves.
#![tactic(auto)]

pub use ellen_tree_form::{Passed, TreeSearch};
pub use tree::EllenTree;

mod deciding;
pub mod laws;
pub mod offers;
pub mod search;
pub mod tree;
mod whole;
mod words;
pub mod wrap;
