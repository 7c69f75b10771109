//! How a try ends.
ghost use Rattle.std.specs.Prelude.{◌≡◌};
ghost use Rattle.normal_traits.specs.declared.form.Wrapped.TheVariants as wrapping;
ghost use Rattle.fast_slow_engine.specs.Mechs.{IsCallOf};
ghost use Rattle.fast_slow_engine.specs.PhaseTable.{failed, told, wrapped_up};
ghost use Rattle.fast_slow_engine.specs.Tries.{CanResume, IsSameCall, mech_tried};
ghost use Rattle.whole_calls.specs.Standings.{IsAfter};

use crate::steps::Steps;
use fast_slow_engine::{Call, Tried};
use lin_report::{Outcome, Reply};
use node_arena::node_place;
use node_arena::places::NODE_VALUE;
use normal_traits::{Normalized, Wrapped};
use step_memory::Request;

/// How many steps of a wrap-up a try makes.
const WRAP_STEPS: u32 = 16;

/// Tells an outcome: a reply as it is, a value by the load of its node.
#[inline(always)]
pub fn tell<C: Normalized, P: Steps<C>>(
    outcome: Outcome,
    call: &Call,
    port: &mut P,
) -> Tried<C::Search, C::Wrap>
    requires after { IsAfter (told outcome) call.now (P.machine port.old) }
    ensures machine { P.machine port.new ≡ mech_tried C.form call.now result }
    ensures can { CanResume C.form result }
    ensures rest { P.rest port.new ≡ P.rest port.old }
{
    let _ = call;
    match outcome {
        Outcome::Plain(reply) => Tried::Ended(reply),
        Outcome::ValueOf(reference) => {
            let word = port.load(node_place(reference % (1 << 20), NODE_VALUE));
            Tried::Ended(Reply::Value((word % (1 << 32)) as u32))
        }
    }
}

/// Counts a failure.
#[inline(always)]
pub fn fail<C: Normalized, P: Steps<C>>(call: &mut Call, port: &P) -> Tried<C::Search, C::Wrap>
    requires call { IsCallOf C.form.object call.old }
    requires after { IsAfter (failed C.form) call.old (P.machine port.now) }
    ensures machine { P.machine port.now ≡ mech_tried C.form call.new result }
    ensures can { CanResume C.form result }
    ensures call { IsCallOf C.form.object call.new }
    ensures same { IsSameCall call.new call.old }
{
    let _ = port;
    call.contention.count();
    Tried::Failed
}

/// Makes a step of a wrap-up that goes on, where that is an exchange.
#[inline(always)]
fn wrap_once<C: Normalized, P: Steps<C>>(
    wrap: &mut C::Wrap,
    call: &Call,
    port: &mut P,
) -> Option<Wrapped>
    requires goes { C.form.wraps wrap.old }
    requires after { IsAfter (wrapped_up C.form wrapping.Going wrap.old) call.now (P.machine port.old) }
    ensures goes { result ≡ Some wrapping.Going → C.form.wraps wrap.new }
    ensures after { (found : Wrapped) → result ≡ Some found → IsAfter (wrapped_up C.form found wrap.new) call.now (P.machine port.new) }
    ensures stays { result ≡ None → (wrap.new ≡ wrap.old) × (P.machine port.new ≡ P.machine port.old) }
    ensures rest { P.rest port.new ≡ P.rest port.old }
{
    let _ = call;
    let Request::Exchange { at, from, to } = C::wrap_request(wrap) else {
        return None;
    };
    let seen = port.exchange(at, from, to);
    Some(C::feed_wrap(wrap, seen))
}

/// Goes on by what has come of a wrap-up that is in this state.
#[inline(always)]
pub fn wrap_up<C: Normalized, P: Steps<C>>(
    begun: Wrapped,
    wrap: C::Wrap,
    call: &mut Call,
    port: &mut P,
) -> Tried<C::Search, C::Wrap>
    requires call { IsCallOf C.form.object call.old }
    requires goes { begun ≡ wrapping.Going → C.form.wraps wrap }
    requires after { IsAfter (wrapped_up C.form begun wrap) call.old (P.machine port.old) }
    ensures machine { P.machine port.new ≡ mech_tried C.form call.new result }
    ensures can { CanResume C.form result }
    ensures call { IsCallOf C.form.object call.new }
    ensures same { IsSameCall call.new call.old }
    ensures rest { P.rest port.new ≡ P.rest port.old }
{
    let mut wrap = wrap;
    let mut wrapped = begun;
    for _ in 0..WRAP_STEPS {
        match wrapped {
            Wrapped::Going => {}
            Wrapped::Done(outcome) => return tell::<C, P>(outcome, call, port),
            Wrapped::Restart => return fail::<C, P>(call, port),
        }
        let Some(found) = wrap_once::<C, P>(&mut wrap, call, port) else {
            return Tried::Wrapping(wrap);
        };
        wrapped = found;
    }
    match wrapped {
        Wrapped::Going => Tried::Wrapping(wrap),
        Wrapped::Done(outcome) => tell::<C, P>(outcome, call, port),
        Wrapped::Restart => fail::<C, P>(call, port),
    }
}
