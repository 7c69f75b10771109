//! The steps of a port's seat, each by itself, for a caller that has no machine in memory.
ghost use Rattle.std.specs.Prelude.{◌≡◌, Bool, false};
ghost use Rattle.step_memory.specs.declared.steps.Request.TheVariants.{Load, Store, Exchange, Add};
ghost use Rattle.fast_slow_engine.specs.PhaseTable.{ends, mech_fed, mech_request, rests};
ghost use Rattle.shared_memory.specs.Views.{beside};

use crate::port::{SeatPort, Shared};
use normal_traits::Normalized;
use std::marker::Brand;
use step_memory::{Request, Seen};

impl<C: Normalized> Shared<C> {
    /// Loads a word, as the next step of the machine in the port's view.
    #[inline(always)]
    pub fn load(&self, port: &mut SeatPort<C>, at: u32) -> u64
        requires table { port.old.table ≡ self.now.table }
        requires runs { rests port.old.view.machine.phase ≡ false }
        requires request { mech_request C.form port.old.view.machine ≡ Load at }
        ensures machine { (won : Bool) × (port.new.view.machine ≡ mech_fed C.form port.old.view.machine (record { before = result; won = won })) }
        ensures beside { beside port.new ≡ beside port.old }
        ensures runs { rests port.new.view.machine.phase ≡ false }
    {
        self.step_as::<Brand>(port, Request::Load { at }).before
    }

    /// Stores a word, likewise.
    #[inline(always)]
    pub fn store(&self, port: &mut SeatPort<C>, at: u32, value: u64)
        requires table { port.old.table ≡ self.now.table }
        requires runs { rests port.old.view.machine.phase ≡ false }
        requires request { mech_request C.form port.old.view.machine ≡ Store at value }
        ensures machine { (won : Bool) × (port.new.view.machine ≡ mech_fed C.form port.old.view.machine (record { before = 0; won = won })) }
        ensures beside { beside port.new ≡ beside port.old }
        ensures runs { rests port.new.view.machine.phase ≡ false }
    {
        self.step_as::<Brand>(port, Request::Store { at, value });
    }

    /// Adds to a word, likewise, where that doesn't draw the end tick.
    #[inline(always)]
    pub fn add(&self, port: &mut SeatPort<C>, at: u32, by: u64) -> u64
        requires table { port.old.table ≡ self.now.table }
        requires runs { rests port.old.view.machine.phase ≡ false }
        requires request { mech_request C.form port.old.view.machine ≡ Add at by }
        requires goes_on { ends port.old.view.machine.phase ≡ false }
        ensures machine { (won : Bool) × (port.new.view.machine ≡ mech_fed C.form port.old.view.machine (record { before = result; won = won })) }
        ensures beside { beside port.new ≡ beside port.old }
        ensures runs { rests port.new.view.machine.phase ≡ false }
    {
        self.step_as::<Brand>(port, Request::Add { at, by }).before
    }

    /// Exchanges a word, likewise.
    #[inline(always)]
    pub fn exchange(&self, port: &mut SeatPort<C>, at: u32, from: u64, to: u64) -> Seen
        requires table { port.old.table ≡ self.now.table }
        requires runs { rests port.old.view.machine.phase ≡ false }
        requires request { mech_request C.form port.old.view.machine ≡ Exchange at from to }
        ensures machine { port.new.view.machine ≡ mech_fed C.form port.old.view.machine result }
        ensures beside { beside port.new ≡ beside port.old }
        ensures runs { rests port.new.view.machine.phase ≡ false }
    {
        self.step_as::<Brand>(port, Request::Exchange { at, from, to })
    }
}
