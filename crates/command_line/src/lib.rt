//! What the commands of the program have in common: words of the command line, and the lines that are written in place of a
//! result.
#![tactic(auto)]

pub use lines::{Message, no_memory_line, push_named, refused_line, unread_line, usage_line};
pub use words::{client_named, number_in};

pub mod lines;
pub mod words;
