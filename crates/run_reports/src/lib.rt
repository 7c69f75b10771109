//! What every run of the whole phase table comes to, for any client with its laws: how each call ended, in which history the
//! calls are placed, and what the report over command files tells of it. Calls may be published and helped, or not.
#![tactic(auto)]

pub mod headline;
pub mod history_laws;
pub mod report_laws;
