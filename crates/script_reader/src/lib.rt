//! Command files and schedules: what their bytes say, or the line at which they are refused and why.
#![tactic(auto)]

pub use causes::{Cause, Refusal, ScriptFault, cause_number};
pub use numbers::number_up_to;
pub use schedules::{ScheduleEntry, Span, read_schedule};
pub use scripts::read_script;

pub mod causes;
pub mod grammar;
pub mod numbers;
pub mod schedules;
pub mod scripts;
#[cfg(test)]
mod tests;
pub mod words;
