//! Whether an order of calls shows that a report is linearizable: how an order is read, and the verdict.
#![tactic(auto)]

pub use beginnings::read_calls;
pub use call_lines::{CallLine, read_call_line};
pub use judges::judge;
pub use orders::{Named, read_order};
pub use parting::ReadReport;
pub use reports::{ReportFault, read_report};
pub use saying::verdict_line;
pub use verdicts::{Objection, Reason, Verdict, reason_number};

pub mod beginnings;
pub mod call_lines;
mod fields;
pub mod judges;
pub mod laws;
pub mod orders;
pub mod parting;
mod reasons;
pub mod reports;
pub mod saying;
mod summaries;
mod table;
#[cfg(test)]
mod tests;
pub mod verdicts;
