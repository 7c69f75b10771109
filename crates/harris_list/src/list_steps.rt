//! The steps of a structure of sorted lists over the port of a seat.

use crate::list::HarrisList;
use step_memory::Seen;
use whole_calls::Steps;

/// A structure of sorted lists, whose steps are made over a port: those of `Steps` that a search needs, where it
/// is known which lists there are.
pub trait ListSteps<P> {
    ghost use Rattle.std.specs.Prelude.{◌≡◌, Bool};
    ghost use Rattle.step_memory.specs.declared.steps.Request.TheVariants.{Load, Exchange};
    ghost use Rattle.fast_slow_engine.specs.Mechs.{Mech};
    ghost use Rattle.fast_slow_engine.specs.PhaseTable.{mech_fed, mech_request};
    ghost use Rattle.harris_list_form.specs.declared.states.ListSearch.{ListSearch};
    ghost use Rattle.harris_list_form.specs.declared.states.ListWrap.{ListWrap};
    ghost use Rattle.harris_list_form.specs.Lists.{Lists};
    ghost use Rattle.harris_list_form.specs.Form.{list_form};

    /// The lists.
    ghost lists: { Lists };

    /// What a port has beside its machine.
    ghost Rest: { Type 0 };

    /// The machine of the port's seat.
    ghost machine: { P → Mech ListSearch ListWrap };

    /// What no step changes.
    ghost rest: { P → Rest };

    /// Loads a word.
    fn load(port: &mut P, at: u32) -> u64
        requires request { mech_request (list_form lists) (machine port.old) ≡ Load at }
        ensures machine { (won : Bool) × (machine port.new ≡ mech_fed (list_form lists) (machine port.old) (record { before = result; won = won })) }
        ensures rest { rest port.new ≡ rest port.old };

    /// Exchanges a word.
    fn exchange(port: &mut P, at: u32, from: u64, to: u64) -> Seen
        requires request { mech_request (list_form lists) (machine port.old) ≡ Exchange at from to }
        ensures machine { machine port.new ≡ mech_fed (list_form lists) (machine port.old) result }
        ensures rest { rest port.new ≡ rest port.old };
}

impl<P: Steps<HarrisList>> ListSteps<P> for HarrisList {
    ghost use Rattle.harris_list_form.specs.Lists.{the_list};

    ghost lists = { the_list };

    ghost Rest = { P.Rest };

    ghost machine = { P.machine };

    ghost rest = { P.rest };

    #[inline(always)]
    fn load(port: &mut P, at: u32) -> u64 {
        port.load(at)
    }

    #[inline(always)]
    fn exchange(port: &mut P, at: u32, from: u64, to: u64) -> Seen {
        port.exchange(at, from, to)
    }
}
