//! Orders: the names of calls, one a line.
ghost use Rattle.std.specs.Prelude.{◌≡◌, ◌≤◌, All, IfOk, vec_len};
ghost use Rattle.script_reader.specs.Outcomes.{ReadsAs};
ghost use Rattle.script_reader.specs.Faults.{IsOutcomeOf};
ghost use Rattle.report_check.specs.Orders.{ORDER_LIMIT, NAME_LIMIT, number_of, name_from, named_by, IsName, order_outcome};

use script_reader::grammar::{Grammar, read_file};
use script_reader::schedules::seat_of;
use script_reader::words::Words;
use script_reader::{Cause, ScriptFault, number_up_to};
use std::alloc::Global;

/// The most bytes of an order.
const MAX_BYTES: u32 = 4_194_304;
/// The most lines with words of an order.
const MAX_NAMES: usize = 524_280;
/// How many seats there may be.
const SEATS: u32 = 8;
/// The greatest number of a call.
const MAX_NUMBER: u32 = 65_535;

/// What a call of a report is named by: its seat, and its number among the calls of the seat.
#[derive(Clone, Copy, Debug, PartialEq, Eq)]
pub struct Named {
    pub seat: u32,
    pub number: u32,
}

/// The number of a call that a word writes.
fn number_of(word: &[u8]) -> Result<u32, Cause>
    ensures { result ≡ number_of word.now }
{
    match number_up_to(MAX_NUMBER, word) {
        None | Some(0) => Err(Cause::BadNumber),
        Some(number) => Ok(number),
    }
}

/// A name from its two words. The seat is judged last, as in a schedule.
fn name_from(seat: &[u8], number: &[u8]) -> Result<Named, Cause>
    ensures { result ≡ name_from seat.now number.now }
{
    let number = number_of(number)?;
    let seat = seat_of(SEATS, seat)?;
    Ok(Named { seat, number })
}

/// The names of calls.
#[derive(Clone, Copy)]
struct Names;

impl Grammar for Names {
    type Entry = Named;

    ghost entry_of = { λ _. named_by };

    ghost limit = { NAME_LIMIT };

    ghost most = { ORDER_LIMIT };

    fn limit(&self) -> usize {
        MAX_NAMES
    }

    fn max_bytes(&self) -> u32 {
        MAX_BYTES
    }

    fn entry(&self, words: Words<'_>) -> Result<Named, Cause> {
        match words {
            Words::Two(seat, number) => name_from(seat, number),
            _ => Err(Cause::BadCommand),
        }
    }
}

/// The names of an order, or the first line at fault.
pub fn read_order(alloc: Global, bytes: &[u8]) -> Result<Vec<Named>, ScriptFault>
    ensures outcome { ReadsAs result (order_outcome bytes.now) }

    // The outcome, told of single lines: none is at fault, or the refusal names the first that is.
    ensures lines { IsOutcomeOf ORDER_LIMIT named_by NAME_LIMIT bytes.now (order_outcome bytes.now) }
    ensures names { IfOk result (λ v. All IsName v.items) }
    ensures count { IfOk result (λ v. vec_len v ≤ NAME_LIMIT) }
{
    read_file(alloc, &Names, bytes)
}
