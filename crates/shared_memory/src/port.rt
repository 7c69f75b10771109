//! The memory and a port of it.
ghost use Rattle.std.specs.Prelude.{◌≡◌, ℕ, ◌+◌, ◌<◌, ◌≤◌, true, false, [], IfOk, length, not};
ghost use Rattle.lin_report.specs.declared.calls.Op.{Op};
ghost use Rattle.step_memory.specs.declared.steps.Request.TheVariants.{Store};
ghost use Rattle.node_arena.specs.Opening.{opening_words};
ghost use Rattle.fast_slow_engine.specs.Runs.{CanMove, begun};
ghost use Rattle.fast_slow_engine.specs.declared.setup.Turn.{Turn};
ghost use Rattle.fast_slow_engine.specs.PhaseTable.{ends, mech_request, rests};
ghost use Rattle.shared_memory.specs.Views.{Face, RunsOnFrom, Memory, Stepped, command_of, cut_left, first_view, glued, moved, new_view};
ghost use Rattle.shared_memory.specs.Closing.{Closes, IsWhole};

use crate::rule::{Advance, Begins, Cut, Glue, Keeps, Miss};
use crate::view::View;
use atomic_table::{Seat, Table};
use fast_slow_engine::{Machine, Setup, Turn};
use lin_report::{NoMemory, Receipt};
use node_arena::places::{CLAIMS, FIRST_WORDS, TICKS};
use normal_traits::Normalized;
use std::alloc::Global;
use std::marker::{Brand, Model};
use step_memory::{Request, Seen};

/// The memory of a run with threads, which they share. Contracts see which table it is, and the setup of its
/// run.
#[derive(Drop)]
pub struct Shared<C: Normalized> {
    table: Table<(), View<C>, Setup, Keeps<C>, Global>,
}

impl<C: Normalized> Model for Shared<C> {
    ghost Value = { Memory };

    ghost view = { λ s. record { table = s.table.shared.table_id; setup = s.table.shared.key } };

    ghost invariant = { λ s. (s.table.shared.table_id.words ≡ length (opening_words C.form.opening s.table.shared.key.cap)) × (s.table.shared.table_id.slots ≡ 0) };
}

/// The tick counter and the claim counter at the end of a run.
#[derive(Clone, Copy, Debug, PartialEq, Eq)]
pub struct Totals {
    pub ticks: u64,
    pub claimed: u64,
}

/// A seat of the memory, for the one thread that steps with it. It takes no room: what it knows, its view, exists
/// in contracts alone.
#[derive(Drop)]
pub struct SeatPort<C: Normalized> {
    seat: Seat<(), View<C>>,
}

impl<C: Normalized> Model for SeatPort<C> {
    ghost Value = { Face C C.Search C.Wrap };

    ghost view = { λ p. record { table = p.seat.table_id; view = p.seat.me.0 } };

    ghost invariant = { λ p. (p.seat.me.0.live ≡ true) × (p.seat.me.1 ≡ []) };
}

impl<C: Normalized> Shared<C> {
    /// The memory as a run opens, with the port of seat 0.
    pub fn make(alloc: Global, setup: Setup) -> Result<(Shared<C>, SeatPort<C>), NoMemory>
        ensures table { IfOk result (λ r. r.1.table ≡ r.0.table) }
        ensures setup { IfOk result (λ r. r.0.setup ≡ setup) }
        ensures view { IfOk result (λ r. r.1.view ≡ first_view setup) }
    {
        let words = C::opening(alloc, setup.cap)?;
        let (table, seat) = Table::of_words(alloc, words.as_slice(), &setup).map_err(|_| NoMemory)?;
        Ok((Shared { table }, SeatPort { seat }))
    }

    /// One step of the port's seat, which begins this command, if any, and what it saw. A place past the last
    /// word is no word of the table: the step loads word 0 for the seat's view, and tells nothing.
    #[inline(always)]
    pub(crate) fn step_as<B: Begins>(&self, port: &mut SeatPort<C>, request: Request) -> Seen
        requires table { port.old.table ≡ self.now.table }
        requires can { CanMove C.form B.command port.old.view.machine }
        requires request { mech_request C.form (begun B.command port.old.view.machine) ≡ request }
        ensures table { port.new.table ≡ port.old.table }
        ensures view { port.new.view ≡ moved C.form port.old.view B.command result }
        ensures stored { (at value : ℕ) → request ≡ Store at value → result.before ≡ 0 }
    {
        let shared = &self.table.shared;
        let at = request.place() as usize;
        if at >= self.table.word_count() {
            shared.load::<Miss<C, B>>(&mut port.seat, 0);
            return Seen {
                before: 0,
                won: false,
            };
        }
        match request {
            Request::Load { .. } => Seen {
                before: shared.load::<Advance<C, B>>(&mut port.seat, at),
                won: true,
            },
            Request::Store { value, .. } => {
                shared.store::<Advance<C, B>>(&mut port.seat, at, value);
                Seen {
                    before: 0,
                    won: true,
                }
            }
            Request::Add { by, .. } => Seen {
                before: shared.fetch_add::<Advance<C, B>>(&mut port.seat, at, by),
                won: true,
            },
            Request::Exchange { from, to, .. } => {
                let before = shared.compare_exchange::<Advance<C, B>>(&mut port.seat, at, from, to);
                Seen {
                    before,
                    won: before == from,
                }
            }
        }
    }

    /// The machine's next request as one step, whose command the caller's ghost names, and what it saw. Each kind of
    /// step is made by itself, so that it is short where the kind is known.
    #[inline(always)]
    fn next_as<B: Begins>(&self, port: &mut SeatPort<C>, machine: &Machine<C>) -> Seen
        requires table { port.old.table ≡ self.now.table }
        requires machine { RunsOnFrom C.form port.old.view machine.now }
        requires command { B.command ≡ command_of port.old.view.machine machine.now }
        ensures table { port.new.table ≡ port.old.table }
        ensures view { port.new.view ≡ moved C.form port.old.view (command_of port.old.view.machine machine.now) result }
    {
        match machine.request() {
            Request::Load { at } => self.step_as::<B>(port, Request::Load { at }),
            Request::Store { at, value } => self.step_as::<B>(port, Request::Store { at, value }),
            Request::Exchange { at, from, to } => {
                self.step_as::<B>(port, Request::Exchange { at, from, to })
            }
            Request::Add { at, by } => self.step_as::<B>(port, Request::Add { at, by }),
        }
    }

    /// Makes the machine's next request on the memory, as one atomic step, and feeds the machine what that step
    /// saw. The machine is the one in the port's view, or that one after one start. It waits for nobody, and a
    /// request past the last word changes nothing.
    #[inline(always)]
    pub fn advance(&self, port: &mut SeatPort<C>, machine: &mut Machine<C>) -> Turn
        requires table { port.old.table ≡ self.now.table }
        requires machine { RunsOnFrom C.form port.old.view machine.old }
        ensures table { port.new.table ≡ port.old.table }
        ensures step { Stepped C.form port.old.view machine.old port.new.view machine.new result }
    {
        let seen = self.next_as::<Brand>(port, machine);
        machine.feed(seen)
    }

    /// The same for a step that draws no end tick, after which the call goes on.
    #[inline(always)]
    pub fn go_on(&self, port: &mut SeatPort<C>, machine: &mut Machine<C>)
        requires table { port.old.table ≡ self.now.table }
        requires machine { RunsOnFrom C.form port.old.view machine.old }
        requires goes_on { ends machine.old.phase ≡ false }
        ensures table { port.new.table ≡ port.old.table }
        ensures step { Stepped C.form port.old.view machine.old port.new.view machine.new Turn.Going }
    {
        let seen = self.next_as::<Brand>(port, machine);
        machine.go_on(seen);
    }

    /// The same for the step that draws the end tick, at which the call returns.
    #[inline(always)]
    pub fn finish(&self, port: &mut SeatPort<C>, machine: &mut Machine<C>) -> Receipt
        requires table { port.old.table ≡ self.now.table }
        requires machine { RunsOnFrom C.form port.old.view machine.old }
        requires ends { ends machine.old.phase ≡ true }
        ensures table { port.new.table ≡ port.old.table }
        ensures step { Stepped C.form port.old.view machine.old port.new.view machine.new (Turn.Returned result) }
    {
        let seen = self.next_as::<Brand>(port, machine);
        machine.finish(seen)
    }

    /// Looks at the first word of the blocks so often. No seat takes part, so it is no step of the run: it only lets
    /// time pass.
    pub fn pause(&self, turns: u32) {
        let blocks = FIRST_WORDS as usize;
        if blocks < self.table.word_count() {
            for _ in 0..turns {
                self.table.shared.peek(blocks);
            }
        }
    }

    /// Splits the port of the next seat off that of seat 0, or of the one into which that was gathered.
    pub fn split(&self, port: &mut SeatPort<C>, seat: u32) -> SeatPort<C>
        requires table { port.old.table ≡ self.now.table }
        requires root { port.old.view.root ≡ true }
        requires next { seat ≡ port.old.view.made + 1 }
        requires within { seat < port.old.view.machine.setup.seats }
        ensures table { (port.new.table ≡ port.old.table) × (result.table ≡ port.old.table) }
        ensures old { port.new.view ≡ cut_left port.old.view }
        ensures new { result.view ≡ new_view seat port.old.view.machine.setup false }
    {
        let seat = self.table.shared.split_seat::<Cut>(&mut port.seat);
        SeatPort { seat }
    }

    /// Takes another port in. Its lines, and those that were gathered into it, stay in the taker's view.
    pub fn gather(&self, taker: &mut SeatPort<C>, other: SeatPort<C>)
        requires table { (taker.old.table ≡ self.now.table) × (other.table ≡ self.now.table) }
        requires idle { (rests taker.old.view.machine.phase ≡ true) × (rests other.view.machine.phase ≡ true) }
        ensures table { taker.new.table ≡ taker.old.table }
        ensures view { taker.new.view ≡ glued taker.old.view other.view }
    {
        let SeatPort { seat } = other;
        self.table.shared.join_seat::<Glue>(&mut taker.seat, seat);
    }

    /// Ends the run, once every port was gathered into this one, and tells its two counters. The words were those
    /// of a run that gave each seat the lines that the port's view has of it.
    pub fn close(self, port: SeatPort<C>) -> Totals
        requires table { port.table ≡ self.table }
        requires whole { IsWhole port.view }
        requires idle { rests port.view.machine.phase ≡ true }
        ensures { Closes C.form port.view result.ticks result.claimed }
    {
        let SeatPort { seat } = port;
        let Shared { table } = self;
        let closed = table.close_with(seat);
        let ticks = closed.word(TICKS as usize);
        let claimed = closed.word(CLAIMS as usize);
        closed.free();
        Totals { ticks, claimed }
    }
}
