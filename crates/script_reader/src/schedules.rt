//! Schedules: one entry a line, a seat and how far it goes.
ghost use Rattle.std.specs.Prelude.{◌≡◌, ◌≤◌, ◌<◌, All, IfOk, vec_len};
ghost use Rattle.script_reader.specs.Outcomes.{FILE_LIMIT, ReadsAs};
ghost use Rattle.script_reader.specs.Schedules.{span_of, seat_of, entry_from, entry_of, ENTRY_LIMIT, IsSpanInRange, schedule_outcome};
ghost use Rattle.script_reader.specs.Faults.{IsOutcomeOf};

use crate::causes::{Cause, ScriptFault};
use crate::grammar::{Grammar, MAX_BYTES, read_file};
use crate::numbers::{is_number, number_up_to};
use crate::words::Words;
use std::alloc::Global;

/// The most lines with words of a schedule.
const MAX_ENTRIES: usize = 4_096;
/// The most steps that one entry gives.
const MAX_STEPS: u32 = 16_384;

/// How far a seat goes.
#[derive(Clone, Copy, Debug, PartialEq, Eq)]
pub enum Span {
    /// So many steps.
    Steps(u32),
    /// Until a step ends a call.
    ToEnd,
    /// Until the seat's next step is an exchange of its list.
    ToExchange,
}

/// One entry of a schedule: a seat, and how far it goes.
#[derive(Clone, Copy, Debug, PartialEq, Eq)]
pub struct ScheduleEntry {
    pub seat: u32,
    pub span: Span,
}

/// The span that a word names.
fn span_of(word: &[u8]) -> Result<Span, Cause>
    ensures { result ≡ span_of word.now }
{
    match word {
        b"end" => Ok(Span::ToEnd),
        b"exchange" => Ok(Span::ToExchange),
        _ if !is_number(word) => Err(Cause::BadCommand),
        _ => match number_up_to(MAX_STEPS, word) {
            None | Some(0) => Err(Cause::BadNumber),
            Some(steps) => Ok(Span::Steps(steps)),
        },
    }
}

/// The seat that a word names, where there are so many.
pub fn seat_of(seats: u32, word: &[u8]) -> Result<u32, Cause>
    requires { 1 ≤ seats }
    ensures { result ≡ seat_of seats word.now }
{
    match number_up_to(seats - 1, word) {
        Some(seat) => Ok(seat),
        None if is_number(word) => Err(Cause::BadSeat),
        None => Err(Cause::BadNumber),
    }
}

/// An entry from its two words. The seat is judged last, since a span at fault is told before a seat that
/// has no command file.
fn entry_from(seats: u32, seat: &[u8], span: &[u8]) -> Result<ScheduleEntry, Cause>
    requires { 1 ≤ seats }
    ensures { result ≡ entry_from seats seat.now span.now }
{
    let span = span_of(span)?;
    let seat = seat_of(seats, seat)?;
    Ok(ScheduleEntry { seat, span })
}

/// The entries for so many seats.
#[derive(Clone, Copy)]
struct Entries {
    seats: u32,
    ghost some: { 1 ≤ seats },
}

impl Grammar for Entries {
    type Entry = ScheduleEntry;

    ghost entry_of = { λ entries. entry_of entries.seats };

    ghost limit = { ENTRY_LIMIT };

    ghost most = { FILE_LIMIT };

    fn limit(&self) -> usize {
        MAX_ENTRIES
    }

    fn max_bytes(&self) -> u32 {
        MAX_BYTES
    }

    fn entry(&self, words: Words<'_>) -> Result<ScheduleEntry, Cause> {
        match words {
            Words::Two(seat, span) => entry_from(self.seats, seat, span),
            _ => Err(Cause::BadCommand),
        }
    }
}

/// The entries of a schedule for so many seats, or the first line at fault.
pub fn read_schedule(
    alloc: Global,
    bytes: &[u8],
    seats: u32,
) -> Result<Vec<ScheduleEntry>, ScriptFault>
    requires some { 1 ≤ seats }
    requires few { seats ≤ 8 }
    ensures outcome { ReadsAs result (schedule_outcome seats bytes.now) }

    // The outcome, told of single lines: none is at fault, or the refusal names the first that is.
    ensures lines { IsOutcomeOf FILE_LIMIT (entry_of seats) ENTRY_LIMIT bytes.now (schedule_outcome seats bytes.now) }
    ensures seats { IfOk result (λ v. All (λ entry. entry.seat < seats) v.items) }
    ensures spans { IfOk result (λ v. All (λ entry. IsSpanInRange entry.span) v.items) }
    ensures count { IfOk result (λ v. vec_len v ≤ ENTRY_LIMIT) }
{
    read_file(alloc, &Entries { seats }, bytes)
}
