//! The summary line: how many calls there are, and how many of each kind.
ghost use Rattle.std.specs.Prelude.{◌≡◌, ℕ, ◌+◌, ◌-◌, ◌≤◌, ◌++◌, ◌∷◌, [], length, map, codes, count_by};
ghost use Rattle.std.specs.Fmt.{decimal};
ghost use Rattle.lin_report.specs.Room.{HasRoom, Appends};
ghost use Rattle.lin_report.specs.Calls.{answered_call, report_of, calls_of};
ghost use Rattle.lin_report.specs.Text.{NEWLINE, spaced, count_words, overtaken_words, is_fast, is_exhausted, summary_text};
ghost use Rattle.lin_report.specs.Writing.{CanWrite};

use crate::calls::{Path, PendingCall, Receipt, Reply};
use crate::report::bytes::append;
use crate::report::lines::{append_named, append_number};

/// How many calls were made by their own seat alone.
fn count_fast(receipts: &[Receipt], pending: &[PendingCall]) -> usize
    ensures { result ≡ count_by is_fast (calls_of (report_of receipts.now pending.now)) }
{
    let answered = receipts
        .iter()
        .filter(|receipt| matches!(receipt.path, Path::Fast))
        .count();
    let waiting = pending
        .iter()
        .filter(|call| matches!(call.path, Path::Fast))
        .count();
    answered + waiting
}

/// How many calls were answered exhausted.
fn count_exhausted(receipts: &[Receipt]) -> usize
    ensures { result ≡ count_by is_exhausted (map answered_call receipts.now) }
{
    receipts
        .iter()
        .filter(|receipt| matches!(receipt.reply, Reply::Exhausted))
        .count()
}

/// Puts the counts last, each behind its name. What isn't fast is slow.
#[tactic(auto, unfolding(crate::specs::Text::spaced, crate::specs::Text::count_words))]
fn append_counts(room: &mut Vec<u8>, calls: u64, fast: u64, exhausted: u64, pending: u64)
    requires fast { fast ≤ calls }
    requires room { HasRoom room.old (length (codes "calls" ++ spaced (count_words calls fast (calls - fast) exhausted pending))) }
    ensures { Appends room.old room.new (codes "calls" ++ spaced (count_words calls fast (calls - fast) exhausted pending)) }
{
    append(room, b"calls");
    append_number(room, calls);
    append_named(room, b"fast", fast);
    append_named(room, b"slow", calls - fast);
    append_named(room, b"exhausted", exhausted);
    append_named(room, b"pending", pending);
}

/// Puts the greatest overtaking count last, where it is told, and ends the line.
#[tactic(auto, unfolding(crate::specs::Text::spaced))]
fn append_overtaken(room: &mut Vec<u8>, overtaken: Option<u64>)
    requires { HasRoom room.old (length (spaced (overtaken_words overtaken) ++ NEWLINE ∷ [])) }
    ensures { Appends room.old room.new (spaced (overtaken_words overtaken) ++ NEWLINE ∷ []) }
{
    match overtaken {
        Some(most) => {
            append_named(room, b"overtaken", most);
            append(room, b"\n");
        }
        None => append(room, b"\n"),
    }
}

/// Puts the summary line last.
pub(super) fn append_summary(
    room: &mut Vec<u8>,
    receipts: &[Receipt],
    pending: &[PendingCall],
    overtaken: Option<u64>,
)
    requires room { HasRoom room.old 128 }
    requires report { CanWrite (report_of receipts.now pending.now) overtaken }
    ensures { Appends room.old room.new (summary_text (report_of receipts.now pending.now) overtaken) }
{
    let calls = receipts.len() + pending.len();
    let fast = count_fast(receipts, pending);
    let exhausted = count_exhausted(receipts);
    append_counts(
        room,
        calls as u64,
        fast as u64,
        exhausted as u64,
        pending.len() as u64,
    );
    append_overtaken(room, overtaken);
}
