//! A try of a call: its search, and the list that was found.
ghost use Rattle.std.specs.Prelude.{◌≡◌};
ghost use Rattle.fast_slow_engine.specs.declared.phases.Phase.TheVariants.{Generate};
ghost use Rattle.fast_slow_engine.specs.declared.phases.Generating.TheVariants.{Search};
ghost use Rattle.fast_slow_engine.specs.Mechs.{IsCallOf, mech_of};
ghost use Rattle.fast_slow_engine.specs.PhaseTable.{offered, readied};
ghost use Rattle.fast_slow_engine.specs.Tries.{CanResume, IsSameCall, mech_tried};
ghost use Rattle.whole_calls.specs.Standings.{IsAfter};

use crate::lists::{claim, execute, fill};
use crate::outcomes::{fail, tell, wrap_up};
use crate::steps::{Seeks, Steps};
use fast_slow_engine::{Call, Tried, spend};
use lin_report::Reply;
use normal_traits::{Found, Normalized};

/// Makes the list of a search that can name it, and wraps it up.
#[inline(always)]
fn offer<C: Normalized, P: Steps<C>>(
    search: &C::Search,
    call: &mut Call,
    port: &mut P,
) -> Tried<C::Search, C::Wrap>
    requires call { IsCallOf C.form.object call.old }
    requires ready { C.form.is_ready search.now }
    requires after { IsAfter (offered C.form search.now) call.old (P.machine port.old) }
    ensures machine { P.machine port.new ≡ mech_tried C.form call.new result }
    ensures can { CanResume C.form result }
    ensures call { IsCallOf C.form.object call.new }
    ensures same { IsSameCall call.new call.old }
    ensures rest { P.rest port.new ≡ P.rest port.old }
{
    let list = fill::<C, P>(search, call, port);
    let stop = execute::<C, P>(&list, call, port);
    spend::<C>(call, stop);
    let (wrap, begun) = C::begin_wrap(call.op, &list, stop);
    wrap_up::<C, P>(begun, wrap, call, port)
}

/// Goes on with a search that can name its list: by the claim of a block where one is needed and none is in hand.
#[inline(always)]
fn go_on<C: Normalized, P: Steps<C>>(
    search: &C::Search,
    call: &mut Call,
    port: &mut P,
) -> Tried<C::Search, C::Wrap>
    requires call { IsCallOf C.form.object call.old }
    requires ready { C.form.is_ready search.now }
    requires after { IsAfter (readied C.form search.now) call.old (P.machine port.old) }
    ensures machine { P.machine port.new ≡ mech_tried C.form call.new result }
    ensures can { CanResume C.form result }
    ensures call { IsCallOf C.form.object call.new }
    ensures same { IsSameCall call.new call.old }
    ensures rest { P.rest port.new ≡ P.rest port.old }
{
    if C::needs_block(call.op) && call.hand.is_none() && !claim::<C, P>(search, call, port) {
        return Tried::Ended(Reply::Exhausted);
    }
    offer::<C, P>(search, call, port)
}

/// Makes a try of a call whose search begins. The port's machine is then that of the call, where the answer says
/// that it stands.
#[inline(always)]
pub fn try_once<C: Seeks, P: Steps<C>>(call: &mut Call, port: &mut P) -> Tried<C::Search, C::Wrap>
    requires call { IsCallOf C.form.object call.old }
    requires begins { P.machine port.old ≡ mech_of call.old (Generate (C.form.begin_of call.old.op) Search) }
    ensures machine { P.machine port.new ≡ mech_tried C.form call.new result }
    ensures can { CanResume C.form result }
    ensures call { IsCallOf C.form.object call.new }
    ensures same { IsSameCall call.new call.old }
    ensures rest { P.rest port.new ≡ P.rest port.old }
{
    let (search, found) = C::search(call.op, port);
    match found {
        Found::Going => Tried::Searching(search),
        Found::Ready => go_on::<C, P>(&search, call, port),
        Found::Answer(outcome) => tell::<C, P>(outcome, call, port),
        Found::Contended => fail::<C, P>(call, port),
    }
}
