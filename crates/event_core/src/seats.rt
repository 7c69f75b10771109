//! A seat with the file of its commands.
ghost use Rattle.std.specs.Prelude.{◌≡◌, ◌+◌, ◌++◌, ◌∷◌, ◌<◌, ◌≤◌, [], true, false, is_some, nat_le, not, length, OnErr, OnOk};
ghost use Rattle.std.specs.Option.{option_to_list};
ghost use Rattle.step_memory.specs.Step.{seen_of, words_after};
ghost use Rattle.fast_slow_engine.specs.Runs.{CanMove, begun, returned};
ghost use Rattle.fast_slow_engine.specs.PhaseTable.{ends, lists, mech_event, mech_fed, mech_new, mech_pending, mech_request, mech_turn, rests};

use fast_slow_engine::{Machine, Plays, Setup, Turn};
use lin_report::{Event, NoMemory, Op, PendingCall};
use normal_traits::Normalized;
use std::marker::Model;
use step_memory::{Request, Seen};

/// The most commands of a file: a seat can number no more.
const MOST_COMMANDS: usize = 65_535;

/// The machine of a seat, and its commands.
#[derive(Drop)]
pub struct Seat<C: Normalized> {
    machine: Machine<C>,
    file: Vec<Op>,
}

impl<C: Normalized> Model for Seat<C> {
    ghost use Rattle.event_core.specs.Seats.{IsSeatOf, Seat as SeatView};

    ghost Value = { SeatView C.Search C.Wrap };

    ghost view = { λ s. record { mech = s.machine; file = s.file.items } };

    ghost invariant = { λ s. IsSeatOf C.form.object (record { mech = s.machine; file = s.file.items }) };
}

impl<C: Normalized> Seat<C> {
    ghost use Rattle.std.specs.Prelude.{Some, None};
    ghost use Rattle.lin_report.specs.CommandFiles.{IsCommandFile};
    ghost use Rattle.lin_report.specs.Object.{IsCommandOf};
    ghost use Rattle.event_core.specs.Seats.{command_of, is_over, lines_owed};

    /// Begins the seat's next command where no call runs. Whether a call runs then.
    pub fn begin_next(&mut self) -> bool
        ensures machine { self.new.mech ≡ begun (command_of self.old) self.old.mech }
        ensures file { self.new.file ≡ self.old.file }
        ensures over { result ≡ not (is_over self.old) }
        ensures runs { result ≡ true → rests self.new.mech.phase ≡ false }
        ensures can { result ≡ true → CanMove C.form (command_of self.old) self.old.mech }
        ensures number { self.new.mech.number ≤ length self.new.file }
        ensures lines { lines_owed self.new ≡ lines_owed self.old }
    {
        if !self.machine.is_idle() {
            return true;
        }
        let number = self.machine.number() as usize;
        if number >= self.file.len() {
            return false;
        }
        self.machine.start(self.file[number]);
        true
    }

    /// The seat of this number, whose machine has made no call.
    pub fn new(seat: u32, setup: Setup, file: Vec<Op>) -> Seat<C>
        requires seat { seat < setup.seats }
        requires file { IsCommandFile C.form.object file.items }
        ensures mech { result.mech ≡ mech_new seat setup }
        ensures file { result.file ≡ file.items }
    {
        Seat {
            machine: Machine::new(seat, setup),
            file,
        }
    }

    /// Whether a call runs or a command is left.
    pub fn has_step(&self) -> bool
        ensures { result ≡ not (is_over self.now) }
    {
        !self.machine.is_idle() || (self.machine.number() as usize) < self.file.len()
    }

    /// How many commands the file has.
    pub fn commands(&self) -> usize
        ensures count { result ≡ length self.now.file }
        ensures few { result ≤ 65535 }
    {
        self.file.len()
    }

    /// Whether the file has as many commands as a seat can number.
    pub fn is_full(&self) -> bool
        ensures { result ≡ nat_le 65535 (length self.now.file) }
    {
        self.file.len() >= MOST_COMMANDS
    }

    /// Puts a command last in the file.
    pub fn put_last(&mut self, op: Op) -> Result<(), NoMemory>
        requires room { length self.old.file < 65535 }
        requires command { IsCommandOf C.form.object op }
        ensures mech { self.new.mech ≡ self.old.mech }
        ensures file { OnOk result (self.new.file ≡ self.old.file ++ op ∷ []) }
        ensures refused { OnErr result (self.new ≡ self.old) }
    {
        self.file.push(op).map_err(|_| NoMemory)
    }

    /// Whether the next step draws a tick.
    pub fn draws_tick(&self) -> bool
        ensures { result ≡ is_some (mech_event self.now.mech) }
    {
        self.machine.draws_tick()
    }

    /// Takes the seat of this number back to where it has made no call.
    pub fn renew(&mut self, seat: u32, setup: Setup)
        requires seat { seat < setup.seats }
        ensures mech { self.new.mech ≡ mech_new seat setup }
        ensures file { self.new.file ≡ self.old.file }
    {
        self.machine = Machine::new(seat, setup);
    }

    /// The event that the next step is, if it is one.
    pub fn next_event(&self) -> Option<Event>
        ensures { result ≡ mech_event self.now.mech }
    {
        self.machine.next_event()
    }

    /// The next step of the call that runs.
    pub fn request(&self) -> Request
        requires runs { rests self.now.mech.phase ≡ false }
        ensures { result ≡ mech_request C.form self.now.mech }
    {
        self.machine.request()
    }

    /// Takes what that step saw.
    pub fn feed(&mut self, seen: Seen) -> Turn
        requires runs { rests self.old.mech.phase ≡ false }
        ensures mech { self.new.mech ≡ mech_fed C.form self.old.mech seen }
        ensures number { self.new.mech.number ≤ length self.new.file }
        ensures file { self.new.file ≡ self.old.file }
        ensures turn { result ≡ mech_turn self.old.mech seen }
        ensures lines { lines_owed self.new + length (returned result) ≡ lines_owed self.old }
    {
        self.machine.feed(seen)
    }

    /// Makes a step that draws no end tick, in one piece, and takes what it saw.
    #[inline(always)]
    pub fn go_on_over<P: Plays>(&mut self, port: &mut P) -> Seen
        requires runs { rests self.old.mech.phase ≡ false }
        requires goes_on { ends self.old.mech.phase ≡ false }
        requires plays { P.can port.old (mech_request C.form self.old.mech) }
        ensures made { P.makes port.old (mech_request C.form self.old.mech) port.new result }
        ensures mech { self.new.mech ≡ mech_fed C.form self.old.mech result }
        ensures number { self.new.mech.number ≤ length self.new.file }
        ensures file { self.new.file ≡ self.old.file }
        ensures turn { mech_turn self.old.mech result ≡ Turn.Going }
        ensures lines { lines_owed self.new ≡ lines_owed self.old }
    {
        self.machine.go_on_over(port)
    }

    /// Whether the next step is the exchange of an entry of a list.
    pub fn next_is_listed(&self) -> bool
        ensures { result ≡ lists self.now.mech.phase }
    {
        self.machine.next_is_listed()
    }

    /// The call that runs, once its begin tick is drawn.
    pub fn pending(&self) -> Option<PendingCall>
        ensures { result ≡ mech_pending self.now.mech }
    {
        self.machine.pending()
    }
}
