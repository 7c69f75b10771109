//! Driving a core in rounds: each seat makes one step, again and again.
ghost use Rattle.std.specs.Prelude.{◌≡◌, ◌<◌, true, length};
ghost use Rattle.event_core.specs.Cores.{core_stepped};
ghost use Rattle.schedule_runs.specs.Rounds.{after_order, round, rounds};

use event_core::{Core, CoreTurn};
use normal_traits::Normalized;

/// Makes so many rounds. It takes no memory and cannot fail. Once all seats are idle it is done, since further
/// rounds would change nothing.
pub fn take_rounds<C: Normalized>(core: &mut Core<C>, seats: u32, count: u32)
    requires seats { length core.old.files ≡ seats }
    ensures steps { core.new ≡ after_order C.form core.old (rounds seats count) }
    ensures files { core.new.files ≡ core.old.files }
{
    for _ in 0..count {
        if take_round(core, seats) {
            return;
        }
    }
}

/// Makes one round. Whether it found every seat idle.
fn take_round<C: Normalized>(core: &mut Core<C>, seats: u32) -> bool
    requires seats { length core.old.files ≡ seats }
    ensures steps { core.new ≡ after_order C.form core.old (round seats) }
    ensures idle { result ≡ true → core.new ≡ core.old }
    ensures files { core.new.files ≡ core.old.files }
{
    let mut idle = true;
    for seat in 0..seats {
        idle &= step_is_idle(core, seat);
    }
    idle
}

/// Makes one step of a seat. Whether it found the seat idle.
pub(crate) fn step_is_idle<C: Normalized>(core: &mut Core<C>, seat: u32) -> bool
    requires seat { seat < length core.old.files }
    ensures step { core.new ≡ core_stepped C.form seat core.old }
    ensures idle { result ≡ true → core.new ≡ core.old }
    ensures files { core.new.files ≡ core.old.files }
{
    matches!(core.step(seat), CoreTurn::Idle)
}
