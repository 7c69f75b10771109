//! A seat: the calls that it makes, one atomic step after the other.
ghost use Rattle.std.specs.Prelude.{◌≡◌, ◌+◌, ◌<◌, ◌↔◌, IsTrue, true, false, Some, None, is_some};
ghost use Rattle.lin_report.specs.declared.calls.Receipt.{Receipt};
ghost use Rattle.fast_slow_engine.specs.declared.setup.Turn.{Turn};

use crate::call::Call;
use crate::contention::Contention;
use crate::doing::{Doing, Room};
use crate::fast::try_again;
use crate::phases::{Applying, Generating};
use crate::plays::{Made, Plays};
use crate::requests::request_of;
use crate::setup::{Setup, Turn};
use crate::steps::go_on;
use crate::tried::Tried;
use lin_report::{Event, EventKind, Op, Path, PendingCall, Receipt};
use normal_traits::{Normalized, Stores};
use std::marker::Model;
use step_memory::{Request, Seen};

/// A seat of a run, with the call that it makes. It takes no memory and waits for nobody.
#[derive(Drop)]
pub struct Machine<C: Normalized> {
    call: Call,
    room: Room<C::Search, C::Wrap>,
}

impl<C: Normalized> Model for Machine<C> {
    ghost use Rattle.fast_slow_engine.specs.Doings.{phase_of};
    ghost use Rattle.fast_slow_engine.specs.Mechs.{Mech, IsMachine, mech_of};

    ghost Value = { Mech C.Search C.Wrap };

    ghost view = { λ m. mech_of m.call (phase_of m.room) };

    ghost invariant = { λ m. IsMachine C.form m.call (phase_of m.room) };
}

impl<C: Normalized> Machine<C> {
    ghost use Rattle.fast_slow_engine.specs.Mechs.{IsCallOf, mech_of};
    ghost use Rattle.fast_slow_engine.specs.Tries.{CanResume, mech_tried, searches};
    ghost use Rattle.fast_slow_engine.specs.PhaseTable.{ends, mech_event, mech_new, mech_started, mech_pending, mech_request, mech_fed, mech_turn, rests, lists};

    /// A seat that has made no call and holds no block.
    pub fn new(seat: u32, setup: Setup) -> Machine<C>
        requires { seat < setup.seats }
        ensures machine { result ≡ mech_new seat setup }
    {
        Machine {
            call: Call {
                setup,
                seat,
                number: 0,
                op: Op {
                    code: 0,
                    key: 0,
                    value: 0,
                },
                begin: 0,
                contention: Contention::new(setup.limit),
                hand: None,
                path: Path::Fast,
            },
            room: Room {
                doing: Doing::Idle,
                stores: Stores::new(),
            },
        }
    }

    /// Whether no call runs.
    pub fn is_idle(&self) -> bool
        ensures { result ≡ rests self.now.phase }
    {
        match &self.room.doing {
            Doing::Idle => true,
            _ => false,
        }
    }

    /// Begins the next call of the seat.
    pub fn start(&mut self, op: Op)
        requires idle { rests self.old.phase ≡ true }
        requires fewer { self.old.number < 65535 }
        requires command { IsTrue (C.form.object.serves op) }
        ensures machine { self.new ≡ mech_started op self.old }
    {
        self.call.begin_next(op);
        self.room.doing = Doing::Begin;
    }

    /// The next step of the call that runs.
    #[inline(always)]
    pub fn request(&self) -> Request
        requires runs { rests self.now.phase ≡ false }
        ensures request { result ≡ mech_request C.form self.now }
    {
        request_of::<C>(&self.call, &self.room)
    }

    /// Whether the next step is the exchange of an entry of a list.
    pub fn next_is_listed(&self) -> bool
        ensures { result ≡ lists self.now.phase }
    {
        match &self.room.doing {
            Doing::Apply { at, .. } => *at == Applying::Execute,
            Doing::Help { aid, .. } => aid.next_is_listed(),
            _ => false,
        }
    }

    /// Takes what the step saw, also where no run would show it. The call returns exactly at the step that
    /// draws the end tick, and the seat is idle then.
    #[inline(always)]
    pub fn feed(&mut self, seen: Seen) -> Turn
        requires runs { rests self.old.phase ≡ false }
        ensures machine { self.new ≡ mech_fed C.form self.old seen }
        ensures turn { result ≡ mech_turn self.old seen }
        ensures returns { IsTrue (rests self.new.phase) ↔ ((receipt : Receipt) × (result ≡ Turn.Returned receipt)) }
    {
        if self.ends_next() {
            return Turn::Returned(self.finish(seen));
        }
        self.go_on(seen);
        Turn::Going
    }

    /// Whether the next step draws the end tick.
    #[inline(always)]
    pub fn ends_next(&self) -> bool
        ensures { result ≡ ends self.now.phase }
    {
        match &self.room.doing {
            Doing::End(_) => true,
            _ => false,
        }
    }

    /// Takes what a step saw that draws no end tick: the call goes on.
    #[inline(always)]
    pub fn go_on(&mut self, seen: Seen)
        requires runs { rests self.old.phase ≡ false }
        requires goes_on { ends self.old.phase ≡ false }
        ensures machine { self.new ≡ mech_fed C.form self.old seen }
        ensures turn { mech_turn self.old seen ≡ Turn.Going }
        ensures runs { rests self.new.phase ≡ false }
    {
        go_on::<C, Made>(&mut self.call, &mut self.room, &mut Made { seen });
    }

    /// Makes a step that draws no end tick, in one piece, and takes what it saw: the call goes on.
    #[inline(always)]
    pub fn go_on_over<P: Plays>(&mut self, port: &mut P) -> Seen
        requires runs { rests self.old.phase ≡ false }
        requires goes_on { ends self.old.phase ≡ false }
        requires plays { P.can port.old (mech_request C.form self.old) }
        ensures made { P.makes port.old (mech_request C.form self.old) port.new result }
        ensures machine { self.new ≡ mech_fed C.form self.old result }
        ensures turn { mech_turn self.old result ≡ Turn.Going }
        ensures runs { rests self.new.phase ≡ false }
    {
        go_on::<C, P>(&mut self.call, &mut self.room, port)
    }

    /// Takes the end tick: the call returns, with its line.
    #[inline(always)]
    pub fn finish(&mut self, seen: Seen) -> Receipt
        requires ends { ends self.old.phase ≡ true }
        ensures machine { self.new ≡ mech_fed C.form self.old seen }
        ensures turn { mech_turn self.old seen ≡ Turn.Returned result }
        ensures rests { rests self.new.phase ≡ true }
    {
        let Doing::End(reply) = self.room.doing else {
            unreachable!()
        };
        self.room.doing = Doing::Idle;
        self.call.receipt(reply, seen.before)
    }

    /// Whether the next step is one of a search of the call's own.
    #[inline(always)]
    pub fn searches(&self) -> bool
        ensures { result ≡ searches self.now.phase }
    {
        match &self.room.doing {
            Doing::Generate { at, .. } => *at == Generating::Search,
            _ => false,
        }
    }

    /// The call that runs, so that a try of it can be made in one piece.
    #[inline(always)]
    pub fn call(&self) -> Call
        requires runs { rests self.now.phase ≡ false }
        ensures machine { self.now ≡ mech_of result self.now.phase }
        ensures call { IsCallOf C.form.object result }
    {
        self.call
    }

    /// Goes on from where a call stands of which a try was made in one piece.
    pub fn resume(&mut self, call: Call, tried: Tried<C::Search, C::Wrap>)
        requires call { IsCallOf C.form.object call }
        requires can { CanResume C.form tried }
        ensures machine { self.new ≡ mech_tried C.form call tried }
    {
        self.call = call;
        match tried {
            Tried::Ended(reply) => self.room.doing = Doing::End(reply),
            Tried::Failed => try_again::<C>(&self.call, &mut self.room),
            Tried::Searching(search) => {
                self.room.doing = Doing::Generate {
                    search,
                    at: Generating::Search,
                };
            }
            Tried::Wrapping(wrap) => self.room.doing = Doing::Wrap(wrap),
        }
    }

    /// The call that runs, once its begin tick is drawn.
    pub fn pending(&self) -> Option<PendingCall>
        ensures { result ≡ mech_pending self.now }
    {
        match &self.room.doing {
            Doing::Idle | Doing::Begin => None,
            _ => Some(self.call.pending()),
        }
    }

    /// How many calls the seat has begun.
    pub fn number(&self) -> u32
        ensures { result ≡ self.now.number }
    {
        self.call.number
    }

    /// Whether the next step is such an event.
    #[inline(always)]
    pub fn draws_tick(&self) -> bool
        ensures { result ≡ is_some (mech_event self.now) }
    {
        match &self.room.doing {
            Doing::Begin | Doing::End(_) => true,
            _ => false,
        }
    }

    /// The event that the next step is, if it is one: it draws the begin tick or the end tick.
    pub fn next_event(&self) -> Option<Event>
        ensures { result ≡ mech_event self.now }
    {
        let kind = match &self.room.doing {
            Doing::Begin => EventKind::Begin,
            Doing::End(_) => EventKind::Return,
            _ => return None,
        };
        Some(Event {
            kind,
            seat: self.call.seat,
            number: self.call.number,
        })
    }
}
