//! What a person at the prompt is told beside the report or the message: which word of the command line is wrong, what
//! a refusal means, and how the program is called. No clause of the program speaks of these texts.
#![tactic(auto)]

pub use endings::{Ending, explain};
pub use file_words::{FileKind, NamedFile, Trouble, file_named};
pub use forms::{Command, Place, command_named, fits};
pub use said::{Said, read_said};
pub use telling::tell;
pub use unseen::{Unseen, line_numbered, unseen_in};
pub use word_faults::{WordFault, word_fault};

pub mod causes;
pub mod endings;
pub mod file_words;
pub mod forms;
pub mod said;
pub mod telling;
#[cfg(test)]
mod tests;
pub mod unseen;
pub mod usage;
pub mod word_faults;
