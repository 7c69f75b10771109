//! The steps of a seat, each of which is the next one of its machine; and a search made of them in one piece.

use lin_report::Op;
use normal_traits::{Found, Normalized};
use step_memory::Seen;

/// The steps of a seat. Its machine, in contracts alone, is fed what each step saw, and the rest of the port stays.
pub trait Steps<C: Normalized> {
    ghost use Rattle.std.specs.Prelude.{◌≡◌, Bool, false};
    ghost use Rattle.step_memory.specs.declared.steps.Request.TheVariants.{Load, Store, Exchange, Add};
    ghost use Rattle.fast_slow_engine.specs.Mechs.{Mech};
    ghost use Rattle.fast_slow_engine.specs.PhaseTable.{ends, mech_fed, mech_request};

    /// What a port has beside its machine.
    ghost Rest: { Type 0 };

    /// The machine of the seat.
    ghost machine: { Self → Mech C.Search C.Wrap };

    /// What no step changes.
    ghost rest: { Self → Rest };

    /// Loads a word.
    fn load(&mut self, at: u32) -> u64
        requires request { mech_request C.form (machine self.old) ≡ Load at }
        ensures machine { (won : Bool) × (machine self.new ≡ mech_fed C.form (machine self.old) (record { before = result; won = won })) }
        ensures rest { rest self.new ≡ rest self.old };

    /// Stores a word.
    fn store(&mut self, at: u32, value: u64)
        requires request { mech_request C.form (machine self.old) ≡ Store at value }
        ensures machine { (won : Bool) × (machine self.new ≡ mech_fed C.form (machine self.old) (record { before = 0; won = won })) }
        ensures rest { rest self.new ≡ rest self.old };

    /// Adds to a word, where that doesn't draw the end tick.
    fn add(&mut self, at: u32, by: u64) -> u64
        requires request { mech_request C.form (machine self.old) ≡ Add at by }
        requires goes_on { ends (machine self.old).phase ≡ false }
        ensures machine { (won : Bool) × (machine self.new ≡ mech_fed C.form (machine self.old) (record { before = result; won = won })) }
        ensures rest { rest self.new ≡ rest self.old };

    /// Exchanges a word.
    fn exchange(&mut self, at: u32, from: u64, to: u64) -> Seen
        requires request { mech_request C.form (machine self.old) ≡ Exchange at from to }
        ensures machine { machine self.new ≡ mech_fed C.form (machine self.old) result }
        ensures rest { rest self.new ≡ rest self.old };
}

/// A structure whose search can be made in one piece.
pub trait Seeks: Normalized {
    ghost use Rattle.std.specs.Prelude.{◌≡◌, IsTrue};
    ghost use Rattle.normal_traits.specs.declared.form.Found.TheVariants as found;
    ghost use Rattle.fast_slow_engine.specs.declared.phases.Phase.TheVariants.{Generate};
    ghost use Rattle.fast_slow_engine.specs.declared.phases.Generating.TheVariants.{Search};
    ghost use Rattle.fast_slow_engine.specs.PhaseTable.{searched};

    /// Makes steps of a search that begins. It ends by a bound of its own, `Going` where the search does not.
    fn search<P: Steps<Self>>(op: Op, port: &mut P) -> (Self::Search, Found)
        requires command { IsTrue (Self.form.object.serves op) }
        requires begins { (P.machine port.old).phase ≡ Generate (Self.form.begin_of op) Search }
        ensures machine { P.machine port.new ≡ searched Self.form result.1 result.0 (P.machine port.old) }
        ensures rest { P.rest port.new ≡ P.rest port.old }
        ensures goes { result.1 ≡ found.Going → Self.form.asks result.0 }
        ensures readies { result.1 ≡ found.Ready → Self.form.is_ready result.0 };
}
