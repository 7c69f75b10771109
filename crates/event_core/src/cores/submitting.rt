//! Commands that a core takes once it stands.
ghost use Rattle.std.specs.Prelude.{◌≡◌, ◌+◌, ◌*◌, ◌<◌, ◌≤◌, ◌↔◌, OnErr, OnOk, Err, length, not, sum_by, vec_capacity, vec_len};
ghost use Rattle.lin_report.specs.Object.{IsCommandOf};
ghost use Rattle.lin_report.specs.Report.{file_of};
ghost use Rattle.event_core.specs.Cores.{core_turn};
ghost use Rattle.event_core.specs.Submissions.{has_move, is_idle, submitted};

use super::{Core, EVENTS};
use crate::seats::Seat;
use lin_report::{Event, NoMemory, Op, Receipt};
use normal_traits::Normalized;

/// Why a command was not taken. The core is what it was.
#[derive(Clone, Copy, Debug, PartialEq, Eq)]
pub enum NotSubmitted {
    /// No memory was left for it.
    NoMemory,
    /// The seat's file has as many commands as a seat can number.
    Spent,
}

impl<C: Normalized> Core<C> {
    /// Puts a command last in the file of a seat. Room for its line and its events is made here, so a step still takes no
    /// memory.
    pub fn submit(&mut self, seat: u32, op: Op) -> Result<(), NotSubmitted>
        requires seat { seat < length self.old.files }
        requires command { IsCommandOf C.form.object op }
        ensures taken { OnOk result (self.new ≡ submitted seat op self.old) }
        ensures refused { OnErr result (self.new ≡ self.old) }
        ensures seats { length self.new.files ≡ length self.old.files }
        ensures spent { result ≡ Err NotSubmitted.Spent ↔ 65535 ≤ length (file_of self.old.files seat) }
    {
        if self.seats[seat as usize].is_full() {
            return Err(NotSubmitted::Spent);
        }
        let Ok(()) = make_rooms(&self.seats, &mut self.receipts, &mut self.events) else {
            return Err(NotSubmitted::NoMemory);
        };
        let Ok(()) = self.seats[seat as usize].put_last(op) else {
            return Err(NotSubmitted::NoMemory);
        };
        Ok(())
    }

    /// Whether a step of a seat would be made: a call of it runs, or its file has a command left.
    pub fn has_step(&self, seat: u32) -> bool
        requires seat { seat < length self.now.files }
        ensures moves { result ≡ has_move seat self.now }
        ensures turn { result ≡ not (is_idle (core_turn C.form seat self.now)) }
    {
        self.seats[seat as usize].has_step()
    }
}

/// Makes room for the lines and the events of one command more than there are.
fn make_rooms<C: Normalized>(
    seats: &[Seat<C>],
    receipts: &mut Vec<Receipt>,
    events: &mut Vec<Event>,
) -> Result<(), NoMemory>
    requires few { length seats.now ≤ 8 }
    ensures receipts { receipts.new.items ≡ receipts.old.items }
    ensures lines { vec_len receipts.new ≡ vec_len receipts.old }
    ensures events { events.new.items ≡ events.old.items }
    ensures line_room { vec_capacity receipts.old ≤ vec_capacity receipts.new }
    ensures event_room { vec_capacity events.old ≤ vec_capacity events.new }
    ensures for_lines { OnOk result (sum_by (λ seat. length seat.file) seats.now + 1 ≤ vec_capacity receipts.new) }
    ensures for_events { OnOk result (4 * (sum_by (λ seat. length seat.file) seats.now + 1) ≤ vec_capacity events.new) }
{
    let commands = commands_held(seats) + 1;
    make_room(receipts, commands)?;
    make_room(events, EVENTS * commands)
}

/// How many commands there are in the files of all seats.
fn commands_held<C: Normalized>(seats: &[Seat<C>]) -> usize
    requires few { length seats.now ≤ 8 }
    ensures count { result ≡ sum_by (λ seat. length seat.file) seats.now }
    ensures few { result ≤ 524280 }
{
    let mut commands = 0;
    for seat in seats {
        commands += seat.commands();
    }
    commands
}

/// Makes room for so many in all.
fn make_room<T: Drop>(items: &mut Vec<T>, count: usize) -> Result<(), NoMemory>
    ensures items { items.new.items ≡ items.old.items }
    ensures len { vec_len items.new ≡ vec_len items.old }
    ensures capacity { vec_capacity items.old ≤ vec_capacity items.new }
    ensures room { OnOk result (count ≤ vec_capacity items.new) }
{
    let more = count.saturating_sub(items.len());
    items.try_reserve(more).map_err(|_| NoMemory)
}
