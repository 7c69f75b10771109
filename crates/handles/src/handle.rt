//! A handle, and a call through it.
ghost use Rattle.std.specs.Prelude.{◌≡◌, ◌+◌, ◌<◌, IsTrue, IfOk, OnErr, false, length, true};
ghost use Rattle.shared_memory.specs.Closing.{IsWhole};
ghost use Rattle.shared_memory.specs.Views.{cut_left, first_view, glued, new_view};
ghost use Rattle.thread_laws.specs.Headline.{MeetsInSomeOrder};
ghost use Rattle.thread_runs.specs.Whole.{IsRun};
ghost use Rattle.handles.specs.Closing.{all_lines, files_in};
ghost use Rattle.handles.specs.Held.{HasCalled};
ghost use Rattle.handles.specs.Opening.{before_calls};

use fast_slow_engine::{Machine, Setup};
use lin_report::{NoMemory, Op, Reply};
use normal_traits::Normalized;
use shared_memory::{SeatPort, Shared, Totals};
use std::alloc::Global;
use std::marker::Model;
use std::sync::Wait;
use thread_laws::laws::threads_meet_headline;
use thread_runs::Tries;
use thread_runs::worker::call;

/// How many calls a seat can number.
const MOST_CALLS: u32 = 65535;

/// The right to make the calls of one seat, one after the other. Contracts see which table it is of, and its view:
/// the lines of the calls that were made through it, and those of the handles that it took in.
#[derive(Drop)]
pub struct Handle<C: Normalized> {
    port: SeatPort<C>,
    machine: Machine<C>,
}

impl<C: Normalized> Model for Handle<C> {
    ghost use Rattle.shared_memory.specs.Views.{Face};
    ghost use Rattle.handles.specs.Held.{IsHeld};

    ghost Value = { Face C C.Search C.Wrap };

    ghost view = { λ h. h.port };

    ghost invariant = { λ h. IsHeld h.port.view h.machine };
}

/// The handle has made every call that its seat can number.
#[derive(Clone, Copy, Debug, PartialEq, Eq)]
pub struct Spent;

impl<C: Normalized> Handle<C> {
    /// A new structure, which is empty, with the handle of seat 0.
    pub(crate) fn first(alloc: Global, setup: Setup) -> Result<(Shared<C>, Handle<C>), NoMemory>
        ensures table { IfOk result (λ r. r.1.table ≡ r.0.table) }
        ensures setup { IfOk result (λ r. r.0.setup ≡ setup) }
        ensures view { IfOk result (λ r. r.1.view ≡ first_view setup) }
    {
        let (shared, port) = Shared::make(alloc, setup)?;
        let machine = Machine::new(0, setup);
        Ok((shared, Handle { port, machine }))
    }

    /// The handle of the next seat, which made no call. Each handle but the first is split off the first.
    pub(crate) fn split(&mut self, shared: &Shared<C>, seat: u32, setup: Setup) -> Handle<C>
        requires table { self.old.table ≡ shared.now.table }
        requires root { self.old.view.root ≡ true }
        requires next { seat ≡ self.old.view.made + 1 }
        requires setup { setup ≡ self.old.view.machine.setup }
        requires within { seat < setup.seats }
        ensures table { (self.new.table ≡ self.old.table) × (result.table ≡ self.old.table) }
        ensures old { self.new.view ≡ cut_left self.old.view }
        ensures new { result.view ≡ new_view seat setup false }
    {
        let port = shared.split(&mut self.port, seat);
        let machine = Machine::new(seat, setup);
        Handle { port, machine }
    }

    /// Makes one call, and tells the reply of its own line. It takes no lock and no memory. Where the handle is spent no
    /// call is made.
    pub fn call<T: Tries<C>, R: Wait>(
        &mut self,
        rt: &R,
        shared: &Shared<C>,
        op: Op,
    ) -> Result<Reply, Spent>
        requires table { self.old.table ≡ shared.now.table }
        requires command { IsTrue (C.form.object.serves op) }
        ensures table { self.new.table ≡ self.old.table }
        ensures seat { before_calls self.new.view ≡ before_calls self.old.view }
        ensures called { IfOk result (λ reply. HasCalled self.old.view self.new.view op reply) }
        ensures fewer { IfOk result (λ _. length self.old.view.receipts < 65535) }
        ensures spent { OnErr result (length self.old.view.receipts ≡ 65535) }
        ensures unchanged { OnErr result (self.new.view ≡ self.old.view) }
    {
        if self.machine.number() >= MOST_CALLS {
            return Err(Spent);
        }
        let receipt = call::<C, T, R>(rt, shared, &mut self.port, &mut self.machine, op);
        Ok(receipt.reply)
    }

    /// Takes another handle in. Its lines, and those that it took in, stay in this one's view.
    pub(crate) fn take_in(&mut self, shared: &Shared<C>, other: Handle<C>)
        requires table { (self.old.table ≡ shared.now.table) × (other.table ≡ shared.now.table) }
        ensures table { self.new.table ≡ self.old.table }
        ensures view { self.new.view ≡ glued self.old.view other.view }
    {
        let Handle { port, machine: _ } = other;
        shared.gather(&mut self.port, port);
    }

    /// Ends the run, once every handle was taken into this one, and tells its two counters. The lines that the view has
    /// are all lines of a run with these counters, in which each seat made the calls of its lines and none is left; that
    /// run is the run of those calls in some order of the seats, and meets what every run meets: its report is complete
    /// and linearizable, and no call was overtaken more often than may be.
    pub(crate) fn close(self, shared: Shared<C>) -> Totals
        requires table { self.table ≡ shared.table }
        requires whole { IsWhole self.view }
        ensures seats { length (files_in self.view) ≡ self.view.machine.setup.seats }
        ensures run { IsRun C.form self.view.machine.setup (files_in self.view) (all_lines self.view) result.ticks result.claimed }
        ensures headline { MeetsInSomeOrder C.form self.view.machine.setup (files_in self.view) (all_lines self.view) result.ticks result.claimed }
    {
        threads_meet_headline::<C>();
        let Handle { port, machine: _ } = self;
        shared.close(port)
    }
}
