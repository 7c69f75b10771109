//! The text of a report, written into room that was made before the calls were.
ghost use Rattle.std.specs.Prelude.{◌≡◌, ℕ, ◌+◌, ◌*◌, ◌≤◌, ◌++◌, [], length, vec_capacity, IfOk};
ghost use Rattle.lin_report.specs.Calls.{report_of};
ghost use Rattle.lin_report.specs.Room.{HasRoom};
ghost use Rattle.lin_report.specs.Text.{report_text, summary_text};
ghost use Rattle.lin_report.specs.Writing.{CanWrite};

use crate::calls::{PendingCall, Receipt};
use crate::objects::NoMemory;
use std::alloc::Global;

mod bytes;
mod lines;
mod merge;
mod summary;

/// An empty vector with room for the report of this many calls: 64 bytes for the line of each, and 128
/// for the summary line.
pub fn report_room(alloc: Global, calls: u32) -> Result<Vec<u8>, NoMemory>
    requires { calls ≤ 524280 }
    ensures empty { IfOk result (λ room. room.items ≡ []) }
    ensures room { IfOk result (λ room. HasRoom room (64 * calls + 128)) }
{
    Ok(Vec::with_capacity(alloc, 64 * calls as usize + 128)?)
}

/// Puts the text of a report last. It takes no memory and cannot fail.
pub fn write_report(
    room: &mut Vec<u8>,
    receipts: &[Receipt],
    pending: &[PendingCall],
    overtaken: Option<u64>,
)
    requires room { HasRoom room.old (64 * (length receipts.now + length pending.now) + 128) }
    requires report { CanWrite (report_of receipts.now pending.now) overtaken }
    ensures text { room.new.items ≡ room.old.items ++ report_text (report_of receipts.now pending.now) overtaken }
    ensures capacity { vec_capacity room.new ≡ vec_capacity room.old }
{
    merge::append_lines(room, receipts, pending);
    summary::append_summary(room, receipts, pending, overtaken);
}

/// Puts the summary line of a report last. It takes no memory and cannot fail.
pub fn write_summary(
    room: &mut Vec<u8>,
    receipts: &[Receipt],
    pending: &[PendingCall],
    overtaken: Option<u64>,
)
    requires room { HasRoom room.old 128 }
    requires report { CanWrite (report_of receipts.now pending.now) overtaken }
    ensures text { room.new.items ≡ room.old.items ++ summary_text (report_of receipts.now pending.now) overtaken }
    ensures capacity { vec_capacity room.new ≡ vec_capacity room.old }
{
    summary::append_summary(room, receipts, pending, overtaken);
}

#[cfg(test)]
mod tests;
