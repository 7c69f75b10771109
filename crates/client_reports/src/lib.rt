//! The report of a run of each client of the program: from bytes or from commands, by a schedule, in rounds, with a seat that
//! stops, or on threads.
#![tactic(auto)]

pub use judging::{Scripts, judge_commands, judge_files, judge_schedule};
pub use loading::{Load, make_summary};
pub use no_report::NoReport;
pub use replay_bytes::replay_of_bytes;
pub use running::{Replayed, make_report, report_of};
pub use sweeping::make_lines;
pub use thread_runs::{Gate, NoGate};
pub use threads::make_thread_report;

mod clients;
pub mod judging;
pub mod loading;
pub mod no_report;
pub mod replay_bytes;
pub mod running;
pub mod sweeping;
pub mod threads;
