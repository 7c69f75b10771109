//! The steps of a call on its slow path: it is published, and helped until it is completed.
ghost use Rattle.std.specs.Prelude.{◌≡◌, ◌+◌, ◌<◌, ◌≤◌, ◌↔◌, ◌^◌, ◌%◌, IsTrue, true, false, Some, None};
ghost use Rattle.lin_report.specs.declared.calls.Path.TheVariants as paths;
ghost use Rattle.fast_slow_engine.specs.Mechs.{Enters, IsCallOf, IsInRange, IsReadyIn, mech_of};
ghost use Rattle.fast_slow_engine.specs.Doings.{phase_of};
ghost use Rattle.help_queue.specs.Heads.{head_of};
ghost use Rattle.help_queue.specs.Enters as entering;
ghost use Rattle.fast_slow_engine.specs.PhaseTable.{announced, driven, entered, head_helped, helped, stepped, told};

use crate::call::Call;
use crate::doing::{Aid, Aiding, Doing, Room};
use crate::fast::{tell, try_again};
use crate::phases::Announcing;
use help_queue::enter::outcome_or_done;
use help_queue::gather::holds;
use help_queue::heads::head_of;
use help_queue::{Enter, Entering};
use lin_report::Path;
use normal_traits::Normalized;
use step_memory::Seen;

/// Goes on where helping has ended.
pub fn end_help<C: Normalized>(drives: bool, call: &Call, room: &mut Room<C::Search, C::Wrap>)
    requires { IsCallOf C.form.object call.now }
    ensures machine { mech_of call.now (phase_of room.new) ≡ helped C.form drives (mech_of call.now (phase_of room.old)) }
    ensures ready { IsReadyIn C.form (phase_of room.new) }
{
    if drives {
        room.doing = Doing::Drive;
    } else {
        try_again::<C>(call, room);
    }
}

/// Begins to help a head, if there is one among the seats.
pub fn help_head<C: Normalized>(
    head: Option<u32>,
    drives: bool,
    call: &Call,
    room: &mut Room<C::Search, C::Wrap>,
)
    requires { IsCallOf C.form.object call.now }
    ensures machine { mech_of call.now (phase_of room.new) ≡ head_helped C.form head drives (mech_of call.now (phase_of room.old)) }
    ensures ready { IsReadyIn C.form (phase_of room.new) }
{
    match head {
        Some(head) if head < call.setup.seats => {
            room.doing = Doing::Help {
                drives,
                aid: Aid {
                    head,
                    seats: call.setup.seats,
                    at: Aiding::Record(None),
                },
            };
        }
        _ => end_help::<C>(drives, call, room),
    }
}

/// A word of the announcement was stored.
pub fn announce<S: Drop, W: Drop>(at: Announcing, call: &mut Call, room: &mut Room<S, W>)
    requires { call.old.seat < call.old.setup.seats }
    ensures number { call.new.number ≡ call.old.number }
    ensures op { call.new.op ≡ call.old.op }
    ensures range { IsInRange call.old → IsInRange call.new }
    ensures machine { mech_of call.new (phase_of room.new) ≡ announced at (mech_of call.old (phase_of room.old)) }
{
    match at {
        Announcing::Value => room.doing = Doing::Announce(Announcing::Op),
        Announcing::Op => room.doing = Doing::Announce(Announcing::Record),
        Announcing::Record => {
            call.path = Path::Slow;
            room.doing = Doing::Enter(Enter::new(call.seat, call.setup.seats));
        }
    }
}

/// A step of entering the queue word.
pub fn enter<C: Normalized>(call: &Call, room: &mut Room<C::Search, C::Wrap>, seen: Seen)
    requires enters { Enters (phase_of room.old) }
    ensures machine { mech_of call.now (phase_of room.new) ≡ stepped C.form (phase_of room.old) seen (mech_of call.now (phase_of room.old)) }
    ensures ready { IsReadyIn C.form (phase_of room.new) }
{
    let Doing::Enter(enter) = &mut room.doing else {
        unreachable!()
    };
    match enter.feed(seen) {
        Entering::Running => {}
        Entering::Entered => room.doing = Doing::Drive,
        Entering::Finished(outcome) => tell(outcome, call, room),
    }
}

/// The queue word was loaded: its head is helped while it holds the seat.
pub fn drive<C: Normalized>(call: &Call, room: &mut Room<C::Search, C::Wrap>, seen: Seen)
    requires { IsCallOf C.form.object call.now }
    ensures machine { mech_of call.now (phase_of room.new) ≡ driven C.form seen (mech_of call.now (phase_of room.old)) }
    ensures ready { IsReadyIn C.form (phase_of room.new) }
{
    if holds(seen.before, call.seat) {
        help_head::<C>(head_of(seen.before), true, call, room);
    } else {
        room.doing = Doing::Collect;
    }
}

/// The own record was loaded: its outcome is told.
pub fn collect<S: Drop, W: Drop>(call: &Call, room: &mut Room<S, W>, seen: Seen)
    ensures machine { mech_of call.now (phase_of room.new) ≡ told (entering.outcome_or_done seen.before) (mech_of call.now (phase_of room.old)) }
{
    tell(outcome_or_done(seen.before), call, room);
}

/// The queue word was loaded, before the own search: its head is helped.
#[inline(never)]
pub fn look<C: Normalized>(call: &Call, room: &mut Room<C::Search, C::Wrap>, seen: Seen)
    requires { IsCallOf C.form.object call.now }
    ensures machine { mech_of call.now (phase_of room.new) ≡ head_helped C.form (head_of seen.before) false (mech_of call.now (phase_of room.old)) }
    ensures ready { IsReadyIn C.form (phase_of room.new) }
{
    help_head::<C>(head_of(seen.before), false, call, room);
}
