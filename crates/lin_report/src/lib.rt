//! Operations and calls of the clients, the sequential objects that say what they answer, and the
//! text of a report.
#![tactic(auto)]

pub use calls::{Client, Op, Outcome, Path, PendingCall, Receipt, Reply};
pub use events::{Event, EventKind};
pub use map_object::MapObject;
pub use objects::{NoMemory, Sequential};
pub use queue_object::FifoObject;
pub use report::{report_room, write_report, write_summary};
pub use set_object::SetObject;

pub mod calls;
pub mod commands;
pub mod events;
pub mod laws;
pub mod map_object;
pub mod objects;
pub mod queue_object;
pub mod report;
pub mod set_object;
