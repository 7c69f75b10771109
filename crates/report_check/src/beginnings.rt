//! The lines of calls with which a report begins: which call may stand on the next line.
ghost use Rattle.std.specs.Prelude.{◌≡◌, ◌<◌, ℕ, false, None, List, [], ◌∷◌, ◌++◌, ◌||◌, length, slice_index_or, map, IfSome, IfOk, All};
ghost use Rattle.std.specs.Option.{option_map};
ghost use Rattle.std.specs.List.{list_any};
ghost use Rattle.lin_report.specs.Calls.{Call};
ghost use Rattle.lin_report.specs.Writing.{IsPrintable};
ghost use Rattle.report_check.specs.CallLines.{call_of};
ghost use Rattle.report_check.specs.Verdicts.{ended_before};
ghost use Rattle.report_check.specs.Beginnings.{rises, in_turn, ends_above, has_tick, ends_at, fresh_end, may_follow, last_line, SEATS, TICKS, Knows, TellsNext, BeginsWith};

use crate::call_lines::{CallLine, read_call_line};
use crate::fields::line_at;
use lin_report::{Client, NoMemory, Reply};
use std::alloc::Global;

/// How many seats there are.
const SEATS: usize = 8;
/// How many ticks may be printed.
const TICKS: usize = 1_048_576;

/// Whether the call begins above the one on the line before.
fn rises(last: Option<CallLine>, call: &CallLine) -> bool
    ensures { result ≡ rises (option_map call_of last) (call_of call.now) }
{
    match last {
        Some(last) => last.begin < call.begin,
        None => true,
    }
}

/// Whether a call with this answer had ended before the tick.
fn ended_before(answer: Option<(Reply, u64)>, call: &CallLine) -> bool
    ensures { result ≡ ended_before answer (call_of call.now) }
{
    match answer {
        Some((_, end)) => end < call.begin,
        None => false,
    }
}

/// Whether the call is the next of its seat.
fn in_turn(last: Option<CallLine>, call: &CallLine) -> bool
    ensures { result ≡ in_turn (option_map call_of last) (call_of call.now) }
{
    match last {
        Some(last) => {
            u64::from(last.number) + 1 == u64::from(call.number) && ended_before(last.answer, call)
        }
        None => call.number == 1,
    }
}

/// Whether the end, where there is one, is above the begin.
fn ends_above(answer: Option<(Reply, u64)>, begin: u64) -> bool
    ensures { result ≡ ends_above answer begin }
{
    match answer {
        Some((_, end)) => begin < end,
        None => true,
    }
}

/// Whether no call before drew the end, where there is one.
fn is_fresh_end(ticks: &[bool], answer: Option<(Reply, u64)>) -> bool
    requires end { IfSome answer (λ a. a.1 < TICKS) }
    requires long { length ticks.now ≡ TICKS }
    ensures { (before : List Call)
        → ((tick : ℕ) → tick < TICKS → slice_index_or ticks.now tick false ≡ list_any (has_tick tick) before)
        → result ≡ fresh_end before answer }
{
    match answer {
        Some((_, end)) => !ticks[end as usize],
        None => true,
    }
}

/// Whether the call may stand on the line behind those of which this is kept.
pub(crate) fn may_follow(
    line: Option<CallLine>,
    last: &[Option<CallLine>],
    ticks: &[bool],
    call: &CallLine,
) -> bool
    requires printable { IsPrintable (call_of call.now) }
    requires seats { length last.now ≡ SEATS }
    requires long { length ticks.now ≡ TICKS }
    ensures { (before : List Call) → option_map call_of line ≡ last_line None before
        → Knows before last.now ticks.now → result ≡ may_follow before (call_of call.now) }
{
    let rises = rises(line, call);
    let in_turn = in_turn(last[call.seat as usize], call);
    let ends_above = ends_above(call.answer, call.begin);
    let begin_is_drawn = ticks[call.begin as usize];
    let is_fresh_end = is_fresh_end(ticks, call.answer);
    rises && in_turn && ends_above && !begin_is_drawn && is_fresh_end
}

/// Marks the end of a call as drawn, where there is one.
fn draw_end(ticks: &mut Vec<bool>, answer: Option<(Reply, u64)>)
    requires end { IfSome answer (λ a. a.1 < TICKS) }
    requires long { length ticks.old.items ≡ TICKS }
    ensures long { length ticks.new.items ≡ TICKS }
    ensures drawn { (tick : ℕ) → slice_index_or ticks.new.items tick false ≡ (ends_at answer tick || slice_index_or ticks.old.items tick false) }
{
    if let Some((_, end)) = answer {
        ticks[end as usize] = true;
    }
}

/// Keeps of a call what the lines behind it need: it is its seat's last one, and its ticks are drawn.
pub(crate) fn keep(last: &mut Vec<Option<CallLine>>, ticks: &mut Vec<bool>, call: CallLine)
    requires printable { IsPrintable (call_of call) }
    requires seats { length last.old.items ≡ SEATS }
    requires long { length ticks.old.items ≡ TICKS }
    ensures { (before : List Call) → Knows before last.old.items ticks.old.items
        → Knows (before ++ call_of call ∷ []) last.new.items ticks.new.items }
{
    last[call.seat as usize] = Some(call);
    ticks[call.begin as usize] = true;
    draw_end(ticks, call.answer);
}

/// The call on the first line, where it may stand behind those of which this is kept, and the bytes behind it.
fn next_call<'a>(
    client: Client,
    line: Option<CallLine>,
    last: &[Option<CallLine>],
    ticks: &[bool],
    bytes: &'a [u8],
) -> Option<(CallLine, &'a [u8])>
    requires seats { length last.now ≡ SEATS }
    requires long { length ticks.now ≡ TICKS }
    ensures { (before : List Call) → option_map call_of line ≡ last_line None before → Knows before last.now ticks.now
        → TellsNext client before bytes.now (option_map (λ n. (call_of n.0, n.1.now)) result) }
{
    let (first, rest) = line_at(bytes)?;
    let call = read_call_line(client, first)?;
    if may_follow(line, last, ticks, &call) {
        Some((call, rest))
    } else {
        None
    }
}

/// No call of any seat.
fn no_calls(alloc: Global, count: usize) -> Result<Vec<Option<CallLine>>, NoMemory>
    ensures long { IfOk result (λ last. length last.items ≡ count) }
    ensures empty { IfOk result (λ last. All (λ call. call ≡ None) last.items) }
{
    Ok(vec![in alloc; None; count]?)
}

/// No tick that is drawn.
fn no_ticks(alloc: Global, count: usize) -> Result<Vec<bool>, NoMemory>
    ensures long { IfOk result (λ ticks. length ticks.items ≡ count) }
    ensures empty { IfOk result (λ ticks. All (λ tick. tick ≡ false) ticks.items) }
{
    Ok(vec![in alloc; false; count]?)
}

/// The calls of the lines with which bytes begin, which ticks they drew, and the bytes behind those lines.
#[derive(Debug, Drop)]
pub struct Begun<'a> {
    pub calls: Vec<CallLine>,
    pub ticks: Vec<bool>,
    pub rest: &'a [u8],
}

/// Reads lines of calls as long as each may stand behind those before it.
pub fn read_calls(alloc: Global, client: Client, bytes: &[u8]) -> Result<Begun<'_>, NoMemory>
    ensures begins { IfOk result (λ r. BeginsWith client bytes.now (map call_of r.calls.items) r.rest.now) }
    ensures long { IfOk result (λ r. length r.ticks.items ≡ TICKS) }
    ensures drawn { IfOk result (λ r. (tick : ℕ) → tick < TICKS
        → slice_index_or r.ticks.items tick false ≡ list_any (has_tick tick) (map call_of r.calls.items)) }
{
    let mut last = no_calls(alloc, SEATS)?;
    let mut ticks = no_ticks(alloc, TICKS)?;
    let mut calls = Vec::new(alloc);
    let mut line = None;
    let mut rest = bytes;
    while let Some((call, behind)) = next_call(client, line, &last, &ticks, rest) {
        calls.push(call)?;
        keep(&mut last, &mut ticks, call);
        line = Some(call);
        rest = behind;
    }
    Ok(Begun { calls, ticks, rest })
}
