//! The list of Harris in normalized form: sorted by key, with nodes that are marked before they leave it.
#![tactic(auto)]

pub use harris_list_form::{Aim, Left, ListWrap, Sought};
pub use list::HarrisList;
pub use seeking::Seeking;

mod deciding;
mod least;
pub mod list;
pub mod list_steps;
mod offers;
mod search;
pub mod seeking;
mod way;
mod whole;
mod whole_least;
mod words;
