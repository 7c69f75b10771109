//! The steps of a call, by its phase. Each is made in one piece: the request of its phase, and what it becomes by what
//! that saw.
ghost use Rattle.std.specs.Prelude.{◌≡◌, false};
ghost use Rattle.fast_slow_engine.specs.Doings.{phase_of};
ghost use Rattle.fast_slow_engine.specs.Mechs.{Applies, Generates, Helps, IsCallOf, IsReadyIn, IsSlow, mech_of};
ghost use Rattle.fast_slow_engine.specs.PhaseTable.{ends, request_in, rests, stepped};

use crate::call::Call;
use crate::doing::{Doing, Room};
use crate::fast::{claim, execute, fill, look_for_block, search, wrap_up};
use crate::helping::help_on;
use crate::phases::{Applying, Generating};
use crate::plays::Plays;
use crate::requests::{announce_request, store_of};
use crate::slow::{announce, collect, drive, end_help, enter, look};
use lin_report::Reply;
use node_arena::places::{CLAIMS, NODE_VALUE, QUEUE, TICKS};
use node_arena::{node_place, record_place};
use normal_traits::Normalized;
use step_memory::{Request, Seen};

/// A step of a call that goes on after it: each but the drawing of the end tick. What it saw.
#[inline(always)]
#[tactic(auto, using(crate::proofs::Ticks::runs_on))]
pub fn go_on<C: Normalized, P: Plays>(
    call: &mut Call,
    room: &mut Room<C::Search, C::Wrap>,
    port: &mut P,
) -> Seen
    requires call { IsCallOf C.form.object call.old }
    requires runs { rests (phase_of room.old) ≡ false }
    requires goes_on { ends (phase_of room.old) ≡ false }
    requires ready { IsReadyIn C.form (phase_of room.old) }
    requires plays { P.can port.old (request_in C.form (phase_of room.old) (mech_of call.old (phase_of room.old))) }
    ensures made { P.makes port.old (request_in C.form (phase_of room.old) (mech_of call.old (phase_of room.old))) port.new result }
    ensures machine { mech_of call.new (phase_of room.new) ≡ stepped C.form (phase_of room.old) result (mech_of call.old (phase_of room.old)) }
    ensures call { IsCallOf C.form.object call.new }
    ensures ready { IsReadyIn C.form (phase_of room.new) }
    ensures still { rests (phase_of room.new) ≡ false }
{
    match &mut room.doing {
        Doing::Begin => {
            let seen = port.play(Request::Add { at: TICKS, by: 1 });
            call.begin = seen.before;
            room.doing = Doing::Look;
            seen
        }
        Doing::Look => {
            let seen = port.play(Request::Load { at: QUEUE });
            look::<C>(call, room, seen);
            seen
        }
        Doing::Generate { .. } => generate::<C, P>(call, room, port),
        Doing::Apply { .. } => apply::<C, P>(call, room, port),
        Doing::Wrap(wrap) => {
            let seen = port.play(C::wrap_request(wrap));
            wrap_up::<C>(call, room, seen);
            seen
        }
        Doing::Value(reference) => {
            let at = node_place(*reference, NODE_VALUE);
            let seen = port.play(Request::Load { at });
            room.doing = Doing::End(Reply::Value((seen.before % (1 << 32)) as u32));
            seen
        }
        Doing::Announce(_) | Doing::Enter(_) | Doing::Drive | Doing::Help { .. } | Doing::Collect =>
            go_slowly::<C, P>(call, room, port),
        Doing::Idle | Doing::End(_) => unreachable!(),
    }
}

/// A step of a search with its claim.
#[inline(always)]
fn generate<C: Normalized, P: Plays>(
    call: &mut Call,
    room: &mut Room<C::Search, C::Wrap>,
    port: &mut P,
) -> Seen
    requires call { IsCallOf C.form.object call.old }
    requires generates { Generates (phase_of room.old) }
    requires ready { IsReadyIn C.form (phase_of room.old) }
    requires plays { P.can port.old (request_in C.form (phase_of room.old) (mech_of call.old (phase_of room.old))) }
    ensures made { P.makes port.old (request_in C.form (phase_of room.old) (mech_of call.old (phase_of room.old))) port.new result }
    ensures machine { mech_of call.new (phase_of room.new) ≡ stepped C.form (phase_of room.old) result (mech_of call.old (phase_of room.old)) }
    ensures call { IsCallOf C.form.object call.new }
    ensures ready { IsReadyIn C.form (phase_of room.new) }
{
    let Doing::Generate { search: state, at } = &room.doing else {
        unreachable!()
    };
    match *at {
        Generating::Search => {
            let seen = port.play(C::request(state));
            search::<C>(call, room, seen);
            seen
        }
        Generating::LookForBlock => {
            let seen = port.play(Request::Load { at: CLAIMS });
            look_for_block::<C>(call, room, seen);
            seen
        }
        Generating::Claim => {
            let seen = port.play(Request::Add { at: CLAIMS, by: 1 });
            claim::<C>(call, room, seen);
            seen
        }
    }
}

/// A step of an offer.
#[inline(always)]
fn apply<C: Normalized, P: Plays>(
    call: &mut Call,
    room: &mut Room<C::Search, C::Wrap>,
    port: &mut P,
) -> Seen
    requires call { IsCallOf C.form.object call.old }
    requires applies { Applies (phase_of room.old) }
    requires ready { IsReadyIn C.form (phase_of room.old) }
    requires plays { P.can port.old (request_in C.form (phase_of room.old) (mech_of call.old (phase_of room.old))) }
    ensures made { P.makes port.old (request_in C.form (phase_of room.old) (mech_of call.old (phase_of room.old))) port.new result }
    ensures machine { mech_of call.new (phase_of room.new) ≡ stepped C.form (phase_of room.old) result (mech_of call.old (phase_of room.old)) }
    ensures call { IsCallOf C.form.object call.new }
    ensures ready { IsReadyIn C.form (phase_of room.new) }
{
    let Doing::Apply { run, at } = &room.doing else {
        unreachable!()
    };
    match *at {
        Applying::Fill(made) => {
            let seen = port.play(store_of(&room.stores, made));
            fill(room);
            seen
        }
        Applying::Execute => {
            let seen = port.play(run.request());
            execute::<C>(call, room, seen);
            seen
        }
    }
}

/// A step of the slow path.
#[inline(always)]
#[tactic(auto, using(crate::proofs::Commands::code_fits, crate::proofs::Commands::key_fits))]
fn go_slowly<C: Normalized, P: Plays>(
    call: &mut Call,
    room: &mut Room<C::Search, C::Wrap>,
    port: &mut P,
) -> Seen
    requires call { IsCallOf C.form.object call.old }
    requires slow { IsSlow (phase_of room.old) }
    requires ready { IsReadyIn C.form (phase_of room.old) }
    requires plays { P.can port.old (request_in C.form (phase_of room.old) (mech_of call.old (phase_of room.old))) }
    ensures made { P.makes port.old (request_in C.form (phase_of room.old) (mech_of call.old (phase_of room.old))) port.new result }
    ensures machine { mech_of call.new (phase_of room.new) ≡ stepped C.form (phase_of room.old) result (mech_of call.old (phase_of room.old)) }
    ensures call { IsCallOf C.form.object call.new }
    ensures ready { IsReadyIn C.form (phase_of room.new) }
{
    match &mut room.doing {
        Doing::Help { .. } => help::<C, P>(call, room, port),
        Doing::Drive => {
            let seen = port.play(Request::Load { at: QUEUE });
            drive::<C>(call, room, seen);
            seen
        }
        Doing::Collect => {
            let at = record_place(call.seat);
            let seen = port.play(Request::Load { at });
            collect(call, room, seen);
            seen
        }
        Doing::Announce(at) => {
            let at = *at;
            let seen = port.play(announce_request(call, at, room));
            announce(at, call, room);
            seen
        }
        Doing::Enter(state) => {
            let seen = port.play(state.request());
            enter::<C>(call, room, seen);
            seen
        }
        _ => unreachable!(),
    }
}

/// A step of helping.
#[inline(always)]
fn help<C: Normalized, P: Plays>(
    call: &mut Call,
    room: &mut Room<C::Search, C::Wrap>,
    port: &mut P,
) -> Seen
    requires call { IsCallOf C.form.object call.old }
    requires helps { Helps (phase_of room.old) }
    requires ready { IsReadyIn C.form (phase_of room.old) }
    requires plays { P.can port.old (request_in C.form (phase_of room.old) (mech_of call.old (phase_of room.old))) }
    ensures made { P.makes port.old (request_in C.form (phase_of room.old) (mech_of call.old (phase_of room.old))) port.new result }
    ensures machine { mech_of call.new (phase_of room.new) ≡ stepped C.form (phase_of room.old) result (mech_of call.old (phase_of room.old)) }
    ensures call { IsCallOf C.form.object call.new }
    ensures ready { IsReadyIn C.form (phase_of room.new) }
{
    let Doing::Help { drives, aid } = &mut room.doing else {
        unreachable!()
    };
    let drives = *drives;
    let (ends, seen) = help_on::<C, P>(aid, &mut room.stores, &mut call.hand, call.setup.cap, port);
    if ends {
        end_help::<C>(drives, call, room);
    }
    seen
}
