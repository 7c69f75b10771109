//! The lines of all calls in rising order of begin, merged from the answered and the pending ones.
ghost use Rattle.std.specs.Prelude.{◌≡◌, ◌⊎◌, ℕ, ◌+◌, ◌*◌, ◌<◌, ◌≤◌, length, slice_index_or, true, false, None};
ghost use Rattle.lin_report.specs.declared.calls.Receipt.{Receipt};
ghost use Rattle.lin_report.specs.declared.calls.PendingCall.{PendingCall};
ghost use Rattle.lin_report.specs.Room.{HasRoom, Appends};
ghost use Rattle.lin_report.specs.Calls.{report_of, calls_of};
ghost use Rattle.lin_report.specs.Text.{lines, by_begin};
ghost use Rattle.lin_report.specs.Writing.{CanWrite};
ghost use Rattle.lin_report.specs.Merging.{AnsweredIsNext, PendingIsNext};

use crate::calls::{PendingCall, Receipt};
use crate::report::lines::{append_pending, append_receipt};

/// Whether of the calls that are left an answered one began first.
fn is_answered_next(
    receipts: &[Receipt],
    pending: &[PendingCall],
    answered: usize,
    waiting: usize,
) -> bool
    requires left { answered < length receipts.now ⊎ waiting < length pending.now }
    requires waiting { waiting ≤ length pending.now }
    ensures answered { result ≡ true → AnsweredIsNext receipts.now pending.now answered waiting }
    ensures pending { result ≡ false → PendingIsNext receipts.now pending.now answered waiting }
{
    answered < receipts.len()
        && (waiting == pending.len() || receipts[answered].begin < pending[waiting].begin)
}

/// Puts the lines of all calls last, each slice being in rising order of begin, and leaves the room of
/// the summary line.
pub(super) fn append_lines(room: &mut Vec<u8>, receipts: &[Receipt], pending: &[PendingCall])
    requires room { HasRoom room.old (64 * (length receipts.now + length pending.now) + 128) }
    requires report { CanWrite (report_of receipts.now pending.now) None }
    ensures room { HasRoom room.new 128 }
    ensures text { Appends room.old room.new (lines (by_begin (calls_of (report_of receipts.now pending.now)))) }
{
    let mut answered = 0;
    let mut waiting = 0;
    while answered < receipts.len() || waiting < pending.len() {
        if is_answered_next(receipts, pending, answered, waiting) {
            append_receipt(room, &receipts[answered]);
            answered += 1;
        } else {
            append_pending(room, &pending[waiting]);
            waiting += 1;
        }
    }
}
