//! The summary line of a report.
ghost use Rattle.std.specs.Prelude.{◌≡◌, ◌↔◌, ◌<◌, ◌++◌, ◌∷◌, [], ℕ, List, None, true, false, map, length, slice_index_or, IfOk};
ghost use Rattle.std.specs.Option.{option_map};
ghost use Rattle.std.specs.List.{list_any};
ghost use Rattle.lin_report.specs.Calls.{report_of};
ghost use Rattle.lin_report.specs.Text.{NEWLINE, summary_text};
ghost use Rattle.lin_report.specs.Writing.{CanWrite};
ghost use Rattle.lin_report.specs.Calls.{Call};
ghost use Rattle.report_check.specs.CallLines.{AsOption};
ghost use Rattle.report_check.specs.Reports.{behind, count_at, end_at, summary_at, KnowsCalls, TellsSummary};

use crate::fields::{line_at, plain_number};
use crate::parting::ReadReport;
use lin_report::{NoMemory, report_room, write_summary};
use std::alloc::Global;

/// How often eight seats can overtake one call.
const MOST_OVERTAKEN: u32 = 56;

/// What stands behind the text with which bytes begin.
fn behind<'a>(text: &[u8], bytes: &'a [u8]) -> Option<&'a [u8]>
    ensures { AsOption (λ rest. rest.now) result (behind text.now bytes.now) }
{
    if bytes.len() < text.len() {
        return None;
    }
    let (front, rest) = bytes.split_at(text.len());
    if front == text { Some(rest) } else { None }
}

/// An overtaking count to the end of the line, and what stands behind that.
fn count_at(bytes: &[u8]) -> Option<(Option<u32>, &[u8])>
    ensures { AsOption (λ s. (s.0, s.1.now)) result (count_at bytes.now) }
{
    let told = behind(b" overtaken ", bytes)?;
    let (word, rest) = line_at(told)?;
    let most = plain_number(MOST_OVERTAKEN, word)?;
    Some((Some(most), rest))
}

/// The end of a summary line, with an overtaking count or without, and what stands behind it.
fn end_at(bytes: &[u8]) -> Option<(Option<u32>, &[u8])>
    ensures { AsOption (λ s. (s.0, s.1.now)) result (end_at bytes.now) }
{
    match bytes {
        [] => None,
        [b'\n', rest @ ..] => Some((None, rest)),
        _ => count_at(bytes),
    }
}

/// A summary line that begins with this front, its overtaking count if it tells one, and what stands behind it.
fn line_with<'a>(front: &[u8], bytes: &'a [u8]) -> Option<(Option<u32>, &'a [u8])>
    ensures { AsOption (λ s. (s.0, s.1.now)) result (summary_at front.now bytes.now) }
{
    end_at(behind(front, bytes)?)
}

/// The summary line of a report without an overtaking count and without its newline.
fn front_of(alloc: Global, report: &ReadReport) -> Result<Vec<u8>, NoMemory>
    requires can { CanWrite (report_of report.now.receipts.items report.now.pending.items) None }
    ensures { IfOk result (λ front. front.items ++ NEWLINE ∷ [] ≡ summary_text (report_of report.now.receipts.items report.now.pending.items) None) }
{
    let mut line = report_room(alloc, 0)?;
    write_summary(&mut line, &report.receipts, &report.pending, None);
    line.pop();
    Ok(line)
}

/// Whether each tick below a count was drawn.
fn are_drawn(ticks: &[bool], count: usize) -> bool
    ensures all { result ≡ true → (tick : ℕ) → tick < count → slice_index_or ticks.now tick false ≡ true }
    ensures one { result ≡ false → ¬ ((tick : ℕ) → tick < count → slice_index_or ticks.now tick false ≡ true) }
{
    for tick in 0..count {
        if !matches!(ticks.get(tick), Some(true)) {
            return false;
        }
    }
    true
}

/// The overtaking count of the summary line of these calls, if it tells one, and what stands behind that line. The calls
/// are given by their report, by which ticks they drew, and by how many.
pub(crate) fn read_summary<'a>(
    alloc: Global,
    report: &ReadReport,
    ticks: &[bool],
    count: usize,
    bytes: &'a [u8],
) -> Result<Option<(Option<u32>, &'a [u8])>, NoMemory>
    requires can { CanWrite (report_of report.now.receipts.items report.now.pending.items) None }
    ensures { IfOk result (λ found. (calls : List Call)
        → KnowsCalls calls (report_of report.now.receipts.items report.now.pending.items) ticks.now count
        → TellsSummary calls bytes.now (option_map (λ s. (s.0, s.1.now)) found)) }
{
    if !are_drawn(ticks, count) {
        return Ok(None);
    }
    let front = front_of(alloc, report)?;
    Ok(line_with(&front, bytes))
}
