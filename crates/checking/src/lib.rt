//! `check`: reads a report and an order of its calls, judges the order, and writes the verdict.
#![tactic(auto)]

pub use checked::{CheckedFile, NotAccepted};
pub use checks::check_main;
pub use stops::Stop;
pub use words::{CheckWords, check_words};

pub mod checked;
pub mod checks;
mod reading;
pub mod stops;
mod telling;
#[cfg(test)]
mod tests;
pub mod words;
