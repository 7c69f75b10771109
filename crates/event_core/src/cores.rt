//! A run of seats over their command files.
ghost use Rattle.std.specs.Prelude.{◌≡◌, ◌+◌, ◌++◌, ◌<◌, ◌≤◌, All, IfOk, Some, false, [], length, map, slice_get, sum_by, vec_len, vec_capacity};
ghost use Rattle.lin_report.specs.CommandFiles.{IsCommandFile};
ghost use Rattle.std.specs.Option.{option_to_list};
ghost use Rattle.fast_slow_engine.specs.Runs.{returned};
ghost use Rattle.step_memory.specs.Step.{seen_of, words_after};
ghost use Rattle.fast_slow_engine.specs.PhaseTable.{mech_event, mech_fed, mech_request, mech_turn, rests};
ghost use Rattle.event_core.specs.Cores.{core_new, core_turn_of, new_seats};
ghost use Rattle.event_core.specs.Seats.{lines_owed};

use crate::noting::{note, note_mark};
use crate::resets::renew_seats;
use crate::seats::Seat;
use crate::watching::Watched;
use arrayvec::ArrayVec;
use fast_slow_engine::{Plays, Setup, Turn};
use lin_report::{Event, NoMemory, Op, PendingCall, Receipt};
use normal_traits::Normalized;
use overtaking_law::greatest_overtaken;
use std::alloc::Global;
use std::marker::Model;

pub mod submitting;

/// What a step of a seat has come to.
#[derive(Clone, Copy, Debug, PartialEq, Eq)]
pub enum CoreTurn {
    /// No call runs, and the seat's file has no command left. Nothing was changed.
    Idle,
    /// One step was made, and the call goes on.
    Going,
    /// One step was made, and it ended the call.
    Returned,
}

/// A run: one memory, and a seat for each command file.
#[derive(Drop)]
pub struct Core<C: Normalized> {
    setup: Setup,
    /// The words of the opening, up to a place behind which all of them are 0.
    opening: Vec<u64>,
    cells: Watched,
    seats: Vec<Seat<C>>,
    receipts: Vec<Receipt>,
    events: Vec<Event>,
}

impl<C: Normalized> Model for Core<C> {
    ghost use Rattle.std.specs.Prelude.{vec_len, vec_capacity};
    ghost use Rattle.event_core.specs.Cores.{CoreView, IsCore, core_of};

    ghost Value = { CoreView C.Search C.Wrap };

    ghost view = { λ c. core_of c.setup c.cells.words c.seats.items c.receipts.items c.events.items };

    ghost invariant = { λ c. IsCore C.form c.setup c.opening.items c.cells.words c.seats.items (vec_len c.receipts) (vec_capacity c.receipts) c.events.items (vec_capacity c.events) };
}

impl<C: Normalized> Core<C> {
    ghost use Rattle.std.specs.Prelude.{IsPermutation};
    ghost use Rattle.std.specs.List.Sorted.{IsNonDecreasingBy};
    ghost use Rattle.lin_report.specs.declared.calls.PendingCall.{PendingCall};
    ghost use Rattle.lin_report.specs.declared.calls.Receipt.{Receipt};
    ghost use Rattle.fast_slow_engine.specs.Runs.{pending_of};
    ghost use Rattle.overtaking_law.specs.Overtaking.{greatest_overtaken};
    ghost use Rattle.run_overtaking.specs.Accounts.{most_overtaken};
    ghost use Rattle.event_core.specs.Cores.{core_stepped, core_turn, next_listed, with_receipts};

    /// The run of these files that made no step, one seat for each. All room is made here: after
    /// `NoMemory` the files are gone, and nothing else is left.
    pub fn new(alloc: Global, setup: Setup, files: Vec<Vec<Op>>) -> Result<Core<C>, NoMemory>
        requires seats { length files.items ≡ setup.seats }
        requires files { All (λ file. IsCommandFile C.form.object file.items) files.items }
        ensures core { IfOk result (λ core. core ≡ core_new C.form setup (map (λ file. file.items) files.items)) }
    {
        let opening = C::opening(alloc, 1)?;
        let words = C::opening(alloc, setup.cap)?;
        let commands = commands_of(&files);
        let receipts = room_for(alloc, commands)?;
        let events = room_for(alloc, EVENTS * commands)?;
        Ok(Core {
            setup,
            opening,
            cells: Watched::new(words),
            seats: seats_of(alloc, setup, files)?,
            receipts,
            events,
        })
    }

    /// Takes the run back to where it made no step. It takes no memory and cannot fail.
    pub fn reset(&mut self)
        ensures core { self.new ≡ core_new C.form self.old.setup self.old.files }
    {
        self.cells.rewrite(&self.opening);
        renew_seats(&mut self.seats, self.setup);
        self.receipts.clear();
        self.events.clear();
    }

    /// Makes one step of a seat. Where no call of it runs, it begins the next command of its file first.
    pub fn step(&mut self, seat: u32) -> CoreTurn
        requires seat { seat < length self.old.files }
        ensures core { self.new ≡ core_stepped C.form seat self.old }
        ensures turn { result ≡ core_turn C.form seat self.old }
    {
        let at = &mut self.seats[seat as usize];
        if !at.begin_next() {
            return CoreTurn::Idle;
        }
        if at.draws_tick() {
            return draw_tick(at, &mut self.cells, &mut self.events, &mut self.receipts);
        }
        at.go_on_over(&mut self.cells);
        let Some(mark) = self.cells.mark() else {
            return CoreTurn::Going;
        };
        note_mark(&mut self.events, mark, self.cells.words());
        CoreTurn::Going
    }

    /// Whether the next step of a seat is the exchange of an entry of a list. A seat without a call has no
    /// such step.
    pub fn next_is_listed(&self, seat: u32) -> bool
        requires seat { seat < length self.now.files }
        ensures { result ≡ next_listed seat self.now }
    {
        self.seats[seat as usize].next_is_listed()
    }

    /// The lines of the calls that returned, in this order.
    pub fn receipts(&self) -> &[Receipt]
        ensures { result.now ≡ self.now.state.receipts }
    {
        self.receipts.as_slice()
    }

    /// Puts the lines in rising order of begin. A line of a later step is put last.
    pub fn sort_by_begin(&mut self)
        ensures same { IsPermutation self.old.state.receipts self.new.state.receipts }
        ensures order { IsNonDecreasingBy (λ (r : Receipt). r.begin) self.new.state.receipts }
        ensures kept { self.new ≡ with_receipts self.new.state.receipts self.old }
    {
        self.receipts.sort_unstable_by_key(|receipt| receipt.begin);
    }

    /// The calls that run, in rising order of begin.
    pub fn pending(&self) -> ArrayVec<PendingCall, 8>
        ensures calls { IsPermutation (pending_of self.now.state.mechs) result.items }
        ensures order { IsNonDecreasingBy (λ (p : PendingCall). p.begin) result.items }
    {
        let mut pending = ArrayVec::new();
        for seat in &self.seats {
            add_pending(&mut pending, seat.pending());
        }
        pending.sort_unstable_by_key(|call| call.begin);
        pending
    }

    /// The events, in order of the steps.
    pub fn events(&self) -> &[Event]
        ensures { result.now ≡ self.now.state.events }
    {
        self.events.as_slice()
    }

    /// The greatest overtaking count of all calls: how often a published call was overtaken at most, by returns of other
    /// seats before it was completed. It is at most (P - 1) (P + 2) / 2, where P is the number of seats.
    pub fn greatest_overtaken(&self) -> u64
        ensures count { result ≡ greatest_overtaken self.now.state.events }
        ensures most { result ≤ most_overtaken self.now.setup.seats }
    {
        greatest_overtaken(self.events.as_slice())
    }

    /// The words of the memory.
    pub fn words(&self) -> &[u64]
        ensures { result.now ≡ self.now.state.words }
    {
        self.cells.words()
    }
}

/// The most events of one call: it begins, is published, completes and returns.
const EVENTS: usize = 4;

/// An empty vector with room for so many.
fn room_for<T: Drop>(alloc: Global, count: usize) -> Result<Vec<T>, NoMemory>
    ensures items { IfOk result (λ room. room.items ≡ []) }
    ensures len { IfOk result (λ room. vec_len room ≡ 0) }
    ensures capacity { IfOk result (λ room. vec_capacity room ≡ count) }
{
    Vec::with_capacity(alloc, count).map_err(|_| NoMemory)
}

/// How many commands there are in all files.
fn commands_of(files: &[Vec<Op>]) -> usize
    requires few { length files.now ≤ 8 }
    requires short { All (λ file. length file.items ≤ 65535) files.now }
    ensures count { result ≡ sum_by (λ file. length file.items) files.now }
    ensures few { result ≤ 524280 }
{
    let mut commands = 0;
    for file in files {
        commands += file.len();
    }
    commands
}

/// A seat for each file.
fn seats_of<C: Normalized>(
    alloc: Global,
    setup: Setup,
    files: Vec<Vec<Op>>,
) -> Result<Vec<Seat<C>>, NoMemory>
    requires seats { length files.items ≡ setup.seats }
    requires files { All (λ file. IsCommandFile C.form.object file.items) files.items }
    ensures seats { IfOk result (λ seats. seats.items ≡ new_seats setup 0 (map (λ file. file.items) files.items)) }
{
    let mut seats = room_for(alloc, files.len())?;
    let mut rest = files;
    while !rest.is_empty() {
        let file = rest.remove(0);
        seats.push_reserved(Seat::new(seats.len() as u32, setup, file));
    }
    Ok(seats)
}

/// Puts a call that runs last, where there is one.
fn add_pending(pending: &mut ArrayVec<PendingCall, 8>, call: Option<PendingCall>)
    requires { length pending.old.items < 8 }
    ensures { pending.new.items ≡ pending.old.items ++ option_to_list call }
{
    if let Some(call) = call {
        pending.push(call);
    }
}

/// The step of a seat that draws a tick. Its event is put last, and so is the line of a call that returns. It stands for
/// itself, so that no other step makes room for a line.
#[inline(never)]
fn draw_tick<C: Normalized>(
    at: &mut Seat<C>,
    cells: &mut Watched,
    events: &mut Vec<Event>,
    receipts: &mut Vec<Receipt>,
) -> CoreTurn
    requires runs { rests at.old.mech.phase ≡ false }
    requires room { vec_len events.old + length (option_to_list (mech_event at.old.mech)) ≤ vec_capacity events.old }
    requires lines { vec_len receipts.old + lines_owed at.old ≤ vec_capacity receipts.old }
    ensures words { cells.new.words ≡ words_after (mech_request C.form at.old.mech) cells.old.words }
    ensures mech { at.new.mech ≡ mech_fed C.form at.old.mech (seen_of (mech_request C.form at.old.mech) cells.old.words) }
    ensures number { at.new.mech.number ≤ length at.new.file }
    ensures file { at.new.file ≡ at.old.file }
    ensures lines { lines_owed at.new + length (returned (mech_turn at.old.mech (seen_of (mech_request C.form at.old.mech) cells.old.words))) ≡ lines_owed at.old }
    ensures items { events.new.items ≡ events.old.items ++ option_to_list (mech_event at.old.mech) }
    ensures capacity { vec_capacity events.new ≡ vec_capacity events.old }
    ensures receipts { receipts.new.items ≡ receipts.old.items ++ returned (mech_turn at.old.mech (seen_of (mech_request C.form at.old.mech) cells.old.words)) }
    ensures count { vec_len receipts.new ≡ vec_len receipts.old + length (returned (mech_turn at.old.mech (seen_of (mech_request C.form at.old.mech) cells.old.words))) }
    ensures room { vec_capacity receipts.new ≡ vec_capacity receipts.old }
    ensures turn { result ≡ core_turn_of (mech_turn at.old.mech (seen_of (mech_request C.form at.old.mech) cells.old.words)) }
{
    let turn = draw(at, cells, events);
    keep(receipts, turn)
}

/// The same, but for the line.
fn draw<C: Normalized>(at: &mut Seat<C>, cells: &mut Watched, events: &mut Vec<Event>) -> Turn
    requires runs { rests at.old.mech.phase ≡ false }
    requires room { vec_len events.old + length (option_to_list (mech_event at.old.mech)) ≤ vec_capacity events.old }
    ensures words { cells.new.words ≡ words_after (mech_request C.form at.old.mech) cells.old.words }
    ensures mech { at.new.mech ≡ mech_fed C.form at.old.mech (seen_of (mech_request C.form at.old.mech) cells.old.words) }
    ensures turn { result ≡ mech_turn at.old.mech (seen_of (mech_request C.form at.old.mech) cells.old.words) }
    ensures number { at.new.mech.number ≤ length at.new.file }
    ensures file { at.new.file ≡ at.old.file }
    ensures lines { lines_owed at.new + length (returned result) ≡ lines_owed at.old }
    ensures items { events.new.items ≡ events.old.items ++ option_to_list (mech_event at.old.mech) }
    ensures capacity { vec_capacity events.new ≡ vec_capacity events.old }
{
    let tick = at.next_event();
    let seen = cells.play(at.request());
    note(events, tick);
    at.feed(seen)
}

/// Puts the line of a call that returns last.
fn keep(receipts: &mut Vec<Receipt>, turn: Turn) -> CoreTurn
    requires { vec_len receipts.old + length (returned turn) ≤ vec_capacity receipts.old }
    ensures items { receipts.new.items ≡ receipts.old.items ++ returned turn }
    ensures len { vec_len receipts.new ≡ vec_len receipts.old + length (returned turn) }
    ensures capacity { vec_capacity receipts.new ≡ vec_capacity receipts.old }
    ensures turn { result ≡ core_turn_of turn }
{
    match turn {
        Turn::Going => CoreTurn::Going,
        Turn::Returned(receipt) => {
            receipts.push_reserved(receipt);
            CoreTurn::Returned
        }
    }
}
