//! The steps of a call on its fast path.
ghost use Rattle.std.specs.Prelude.{◌≡◌, ◌+◌, ◌<◌, ◌≤◌, ◌↔◌, ◌^◌, ◌%◌, IsTrue, true, false, Some, None, length};
ghost use Rattle.fast_slow_engine.specs.declared.phases.Phase.{Phase};
ghost use Rattle.fast_slow_engine.specs.declared.phases.Generating.{Generating};
ghost use Rattle.normal_traits.specs.declared.form.Wrapped.{Wrapped};
ghost use Rattle.fast_slow_engine.specs.Doings.{phase_of};
ghost use Rattle.fast_slow_engine.specs.Hands.{block_of};
ghost use Rattle.fast_slow_engine.specs.Mechs.{Applies, CanOffer, Executes, Fills, Generates, WrapsUp, IsAt, IsCallOf, IsInRange, IsReadyIn, mech_of};
ghost use Rattle.fast_slow_engine.specs.OfferStores.{own_stores};
ghost use Rattle.fast_slow_engine.specs.Tries.{IsSameCall};
ghost use Rattle.fast_slow_engine.specs.PhaseTable.{ends, rests, told, tried, failed, offered, offered_in, filled, readied_in, searched, spent, stopped, wrapped_up, generated, applied, stepped};

use crate::call::Call;
use crate::doing::{Doing, Room};
use crate::phases::{Announcing, Applying, Generating};
use crate::stores::store_call;
use cas_executor::{Execution, FastRun};
use lin_report::{Outcome, Reply};
use normal_traits::{Found, Normalized, Stores, Wrapped};
use step_memory::Seen;

/// Ends the call with an outcome: a reply is told as it is, the value of a node is loaded first.
pub fn tell<S: Drop, W: Drop>(outcome: Outcome, call: &Call, room: &mut Room<S, W>)
    ensures machine { mech_of call.now (phase_of room.new) ≡ told outcome (mech_of call.now (phase_of room.old)) }
{
    room.doing = match outcome {
        Outcome::Plain(reply) => Doing::End(reply),
        Outcome::ValueOf(reference) => Doing::Value(reference % (1 << 20)),
    };
}

/// Begins a new search. At the limit of failures the call is announced.
pub fn try_again<C: Normalized>(call: &Call, room: &mut Room<C::Search, C::Wrap>)
    requires { IsCallOf C.form.object call.now }
    ensures machine { mech_of call.now (phase_of room.new) ≡ tried C.form (mech_of call.now (phase_of room.old)) }
    ensures ready { IsReadyIn C.form (phase_of room.new) }
{
    room.doing = if call.contention.may_try() {
        Doing::Generate {
            search: C::begin(call.op),
            at: Generating::Search,
        }
    } else {
        Doing::Announce(Announcing::Value)
    };
}

/// Counts a failure and begins a new search.
#[inline(never)]
fn fail<C: Normalized>(call: &mut Call, room: &mut Room<C::Search, C::Wrap>)
    requires { IsCallOf C.form.object call.old }
    ensures machine { mech_of call.new (phase_of room.new) ≡ failed C.form (mech_of call.old (phase_of room.old)) }
    ensures call { IsCallOf C.form.object call.new }
    ensures ready { IsReadyIn C.form (phase_of room.new) }
{
    call.contention.count();
    try_again::<C>(call, room);
}

/// Makes the stores that fill a block for a list that the seat executes itself.
pub fn fill_for<C: Normalized>(call: &Call, search: &C::Search, block: u32, stores: &mut Stores)
    requires call { IsCallOf C.form.object call.now }
    requires ready { C.form.is_ready search.now }
    requires block { block < 2 ^ 17 }
    ensures filled { stores.new.items ≡ own_stores block call.now.seat call.now.number call.now.op (C.form.offer_of search.now call.now.op block).stores }
{
    store_call(stores, block, call.seat, call.number as u16, call.op);
    C::stores(search, call.op, block, stores);
}

/// Names the list of a generator that is ready, with the block in hand where the operation needs one. The
/// block is filled first.
fn offer<C: Normalized>(call: &Call, room: &mut Room<C::Search, C::Wrap>)
    requires call { IsCallOf C.form.object call.now }
    requires ready { CanOffer C.form (phase_of room.old) }
    ensures machine { mech_of call.now (phase_of room.new) ≡ offered_in C.form (phase_of room.old) (mech_of call.now (phase_of room.old)) }
    ensures ready { IsReadyIn C.form (phase_of room.new) }
{
    let Doing::Generate { search, .. } = &room.doing else {
        unreachable!()
    };
    let needs = C::needs_block(call.op);
    let block = if needs { call.hand.unwrap_or(0) } else { 0 };
    let list = C::list(search, call.op, block);
    let at = if needs {
        fill_for::<C>(call, search, block, &mut room.stores);
        Applying::Fill(0)
    } else {
        room.stores.clear();
        Applying::Execute
    };
    room.doing = Doing::Apply {
        run: FastRun::new(list),
        at,
    };
}

/// Goes on with a generator that can name its list: to the claim of a block where one is needed and none
/// is in hand.
#[inline(never)]
fn ready<C: Normalized>(call: &Call, room: &mut Room<C::Search, C::Wrap>)
    requires call { IsCallOf C.form.object call.now }
    requires ready { CanOffer C.form (phase_of room.old) }
    ensures machine { mech_of call.now (phase_of room.new) ≡ readied_in C.form (phase_of room.old) (mech_of call.now (phase_of room.old)) }
    ensures ready { IsReadyIn C.form (phase_of room.new) }
{
    if C::needs_block(call.op) && call.hand.is_none() {
        let Doing::Generate { at, .. } = &mut room.doing else {
            unreachable!()
        };
        *at = Generating::LookForBlock;
    } else {
        offer::<C>(call, room);
    }
}

/// A step of the generator.
#[inline(always)]
pub fn search<C: Normalized>(call: &mut Call, room: &mut Room<C::Search, C::Wrap>, seen: Seen)
    requires call { IsCallOf C.form.object call.old }
    requires searches { IsAt Generating.Search (phase_of room.old) }
    requires ready { IsReadyIn C.form (phase_of room.old) }
    ensures machine { mech_of call.new (phase_of room.new) ≡ stepped C.form (phase_of room.old) seen (mech_of call.old (phase_of room.old)) }
    ensures call { IsCallOf C.form.object call.new }
    ensures ready { IsReadyIn C.form (phase_of room.new) }
{
    let Doing::Generate { search, .. } = &mut room.doing else {
        unreachable!()
    };
    match C::feed(search, seen) {
        Found::Going => {}
        Found::Ready => ready::<C>(call, room),
        Found::Answer(outcome) => tell(outcome, call, room),
        Found::Contended => fail::<C>(call, room),
    }
}

/// Whether the claim counter, at this number, has no block left.
fn none_is_left(call: &Call, claimed: u64) -> bool
    ensures { IsTrue result ↔ (call.now.setup.cap ≤ claimed) }
{
    claimed >= u64::from(call.setup.cap)
}

/// Looks whether a block is left to claim.
#[inline(never)]
pub fn look_for_block<C: Normalized>(call: &Call, room: &mut Room<C::Search, C::Wrap>, seen: Seen)
    requires looks { IsAt Generating.LookForBlock (phase_of room.old) }
    requires ready { IsReadyIn C.form (phase_of room.old) }
    ensures machine { mech_of call.now (phase_of room.new) ≡ stepped C.form (phase_of room.old) seen (mech_of call.now (phase_of room.old)) }
    ensures ready { IsReadyIn C.form (phase_of room.new) }
{
    if none_is_left(call, seen.before) {
        room.doing = Doing::End(Reply::Exhausted);
        return;
    }
    let Doing::Generate { at, .. } = &mut room.doing else {
        unreachable!()
    };
    *at = Generating::Claim;
}

/// Takes the block that was claimed, where there was one.
#[inline(never)]
pub fn claim<C: Normalized>(call: &mut Call, room: &mut Room<C::Search, C::Wrap>, seen: Seen)
    requires call { IsCallOf C.form.object call.old }
    requires claims { IsAt Generating.Claim (phase_of room.old) }
    requires ready { IsReadyIn C.form (phase_of room.old) }
    ensures machine { mech_of call.new (phase_of room.new) ≡ stepped C.form (phase_of room.old) seen (mech_of call.old (phase_of room.old)) }
    ensures call { IsCallOf C.form.object call.new }
    ensures ready { IsReadyIn C.form (phase_of room.new) }
{
    if none_is_left(call, seen.before) {
        room.doing = Doing::End(Reply::Exhausted);
        return;
    }
    call.hand = Some(seen.before as u32 + 1);
    offer::<C>(call, room);
}

/// A store into the block in hand was made.
#[inline(always)]
pub fn fill<S: Drop, W: Drop>(room: &mut Room<S, W>)
    requires { Fills (phase_of room.old) }
    ensures machine { phase_of room.new ≡ filled (phase_of room.old) }
{
    let Doing::Apply { at, .. } = &mut room.doing else {
        unreachable!()
    };
    let Applying::Fill(made) = at else {
        unreachable!()
    };
    if *made as usize + 1 == room.stores.len() {
        *at = Applying::Execute;
    } else {
        *made += 1;
    }
}

/// Goes on by what has come of a wrap-up that is in this state.
fn wrapped<C: Normalized>(
    wrapped: Wrapped,
    wrap: C::Wrap,
    call: &mut Call,
    room: &mut Room<C::Search, C::Wrap>,
)
    requires call { IsCallOf C.form.object call.old }
    requires goes { wrapped ≡ Wrapped.Going → C.form.wraps wrap }
    ensures machine { (before : Phase C.Search C.Wrap) → mech_of call.new (phase_of room.new) ≡ wrapped_up C.form wrapped wrap (mech_of call.old before) }
    ensures call { IsCallOf C.form.object call.new }
    ensures ready { IsReadyIn C.form (phase_of room.new) }
{
    match wrapped {
        Wrapped::Going => room.doing = Doing::Wrap(wrap),
        Wrapped::Done(outcome) => tell(outcome, call, room),
        Wrapped::Restart => fail::<C>(call, room),
    }
}

/// Where an entry of the list took effect, the block that it uses is no longer in hand.
pub fn spend<C: Normalized>(call: &mut Call, stop: u32)
    requires { IsCallOf C.form.object call.old }
    ensures machine { (phase : Phase C.Search C.Wrap) → mech_of call.new phase ≡ spent C.form stop (mech_of call.old phase) }
    ensures op { call.new.op ≡ call.old.op }
    ensures same { IsSameCall call.new call.old }
    ensures call { IsCallOf C.form.object call.new }
{
    if stop > 0 && C::needs_block(call.op) {
        call.hand = None;
    }
}

/// The exchange of an entry was made.
#[inline(never)]
pub fn execute<C: Normalized>(call: &mut Call, room: &mut Room<C::Search, C::Wrap>, seen: Seen)
    requires call { IsCallOf C.form.object call.old }
    requires executes { Executes (phase_of room.old) }
    requires ready { IsReadyIn C.form (phase_of room.old) }
    ensures machine { mech_of call.new (phase_of room.new) ≡ stepped C.form (phase_of room.old) seen (mech_of call.old (phase_of room.old)) }
    ensures call { IsCallOf C.form.object call.new }
    ensures ready { IsReadyIn C.form (phase_of room.new) }
{
    let Doing::Apply { run, .. } = &mut room.doing else {
        unreachable!()
    };
    let Execution::Stopped(stop) = run.feed(seen) else {
        return;
    };
    spend::<C>(call, stop);
    let (wrap, begun) = C::begin_wrap(call.op, run.list(), stop);
    wrapped::<C>(begun, wrap, call, room);
}

/// A step of the wrap-up.
#[inline(never)]
pub fn wrap_up<C: Normalized>(call: &mut Call, room: &mut Room<C::Search, C::Wrap>, seen: Seen)
    requires call { IsCallOf C.form.object call.old }
    requires wraps { WrapsUp (phase_of room.old) }
    requires ready { IsReadyIn C.form (phase_of room.old) }
    ensures machine { mech_of call.new (phase_of room.new) ≡ stepped C.form (phase_of room.old) seen (mech_of call.old (phase_of room.old)) }
    ensures call { IsCallOf C.form.object call.new }
    ensures ready { IsReadyIn C.form (phase_of room.new) }
{
    let Doing::Wrap(wrap) = &mut room.doing else {
        unreachable!()
    };
    match C::feed_wrap(wrap, seen) {
        Wrapped::Going => {}
        Wrapped::Done(outcome) => tell(outcome, call, room),
        Wrapped::Restart => fail::<C>(call, room),
    }
}
