//! The tries of a call in one piece.
ghost use Rattle.std.specs.Prelude.{◌≡◌, true, false};
ghost use Rattle.fast_slow_engine.specs.declared.phases.Phase.TheVariants.{Generate};
ghost use Rattle.fast_slow_engine.specs.declared.phases.Generating.TheVariants.{Search};
ghost use Rattle.fast_slow_engine.specs.Mechs.{IsCallOf, SameCall, mech_of};
ghost use Rattle.fast_slow_engine.specs.PhaseTable.{rests};
ghost use Rattle.fast_slow_engine.specs.Tries.{CanResume, IsSameCall, mech_tried, searches};
ghost use Rattle.shared_memory.specs.Views.{beside};

use fast_slow_engine::{Call, Machine, Tried};
use normal_traits::Normalized;
use shared_memory::{SeatPort, Shared};

/// How many turns a call pauses after its first failure. Each further failure doubles them, up to the most.
const FIRST_PAUSE: u32 = 8192;
/// How many turns it pauses at most.
const LONGEST_PAUSE: u32 = 65536;
/// How many tries are made in one piece at most. Each is a failure more, and a call has no more than 255.
const MOST_TRIES: u32 = 256;

/// Makes tries of calls of a structure in one piece.
pub trait Tries<C: Normalized> {
    ghost use Rattle.std.specs.Prelude.{◌≡◌};
    ghost use Rattle.fast_slow_engine.specs.declared.phases.Phase.TheVariants.{Generate};
    ghost use Rattle.fast_slow_engine.specs.declared.phases.Generating.TheVariants.{Search};
    ghost use Rattle.fast_slow_engine.specs.Mechs.{IsCallOf, mech_of};
    ghost use Rattle.fast_slow_engine.specs.Tries.{CanResume, IsSameCall, mech_tried};
    ghost use Rattle.shared_memory.specs.Views.{beside};

    /// Makes a try of a call whose search begins. The machine in the port's view is then that of the call, where the
    /// answer says that it stands.
    fn try_once(
        shared: &Shared<C>,
        port: &mut SeatPort<C>,
        call: &mut Call,
    ) -> Tried<C::Search, C::Wrap>
        requires table { port.old.table ≡ shared.now.table }
        requires call { IsCallOf C.form.object call.old }
        requires begins { port.old.view.machine ≡ mech_of call.old (Generate (C.form.begin_of call.old.op) Search) }
        ensures machine { port.new.view.machine ≡ mech_tried C.form call.new result }
        ensures can { CanResume C.form result }
        ensures call { IsCallOf C.form.object call.new }
        ensures same { IsSameCall call.new call.old }
        ensures beside { beside port.new ≡ beside port.old };
}

/// Makes no step: the call goes on step by step.
pub struct Stepwise;

impl<C: Normalized> Tries<C> for Stepwise {
    fn try_once(
        _shared: &Shared<C>,
        _port: &mut SeatPort<C>,
        call: &mut Call,
    ) -> Tried<C::Search, C::Wrap> {
        Tried::Searching(C::begin(call.op))
    }
}

/// Makes tries of a call whose search begins, with a pause after each that fails, until one ends otherwise or the call
/// is to be announced.
fn make_tries<C: Normalized, T: Tries<C>>(
    shared: &Shared<C>,
    port: &mut SeatPort<C>,
    call: &mut Call,
) -> Tried<C::Search, C::Wrap>
    requires table { port.old.table ≡ shared.now.table }
    requires call { IsCallOf C.form.object call.old }
    requires begins { port.old.view.machine ≡ mech_of call.old (Generate (C.form.begin_of call.old.op) Search) }
    ensures machine { port.new.view.machine ≡ mech_tried C.form call.new result }
    ensures can { CanResume C.form result }
    ensures same { IsSameCall call.new call.old }
    ensures call { IsCallOf C.form.object call.new }
    ensures beside { beside port.new ≡ beside port.old }
{
    let mut turns = FIRST_PAUSE;
    for _ in 0..MOST_TRIES {
        match T::try_once(shared, port, call) {
            Tried::Failed => {
                if !call.contention.may_try() {
                    return Tried::Failed;
                }
            }
            other => return other,
        }
        shared.pause(turns);
        turns = LONGEST_PAUSE.min(2 * turns);
    }
    Tried::Searching(C::begin(call.op))
}

/// Makes tries in one piece of the call of a machine, where its search begins. Then the machine goes on from there.
pub fn try_whole<C: Normalized, T: Tries<C>>(
    shared: &Shared<C>,
    port: &mut SeatPort<C>,
    machine: &mut Machine<C>,
)
    requires table { port.old.table ≡ shared.now.table }
    requires is { machine.old ≡ port.old.view.machine }
    requires runs { rests machine.old.phase ≡ false }
    requires begins { searches machine.old.phase ≡ true → machine.old.phase ≡ Generate (C.form.begin_of machine.old.op) Search }
    ensures is { machine.new ≡ port.new.view.machine }
    ensures runs { rests machine.new.phase ≡ false }
    ensures same { SameCall machine.new machine.old }
    ensures beside { beside port.new ≡ beside port.old }
{
    if !machine.searches() {
        return;
    }
    let mut call = machine.call();
    let tried = make_tries::<C, T>(shared, port, &mut call);
    machine.resume(call, tried);
}
