//! Driving a core one of whose seats stops for ever.
ghost use Rattle.std.specs.Prelude.{◌≡◌, ◌<◌, true, length};
ghost use Rattle.schedule_runs.specs.Rounds.{after_order, repeated};
ghost use Rattle.schedule_runs.specs.Stops.{round_without, stop_order};

use crate::driver::make_steps;
use crate::rounds::step_is_idle;
use event_core::Core;
use normal_traits::Normalized;

/// Makes so many steps of a seat, which stops then for ever, and after them so many rounds of the other seats. It takes
/// no memory and cannot fail. Once the others are idle it is done, since further rounds would change nothing.
pub fn run_past_stop<C: Normalized>(
    core: &mut Core<C>,
    seats: u32,
    stopped: u32,
    steps: u32,
    count: u32,
)
    requires seats { length core.old.files ≡ seats }
    requires stopped { stopped < seats }
    ensures steps { core.new ≡ after_order C.form core.old (stop_order seats stopped steps count) }
    ensures files { core.new.files ≡ core.old.files }
{
    make_steps(core, stopped, steps);
    take_rounds_without(core, seats, stopped, count);
}

/// Makes so many rounds of all seats but one.
fn take_rounds_without<C: Normalized>(core: &mut Core<C>, seats: u32, stopped: u32, count: u32)
    requires seats { length core.old.files ≡ seats }
    ensures steps { core.new ≡ after_order C.form core.old (repeated (round_without stopped seats) count) }
    ensures files { core.new.files ≡ core.old.files }
{
    for _ in 0..count {
        if take_round_without(core, seats, stopped) {
            return;
        }
    }
}

/// Makes one round of all seats but one. Whether it found each of them idle.
fn take_round_without<C: Normalized>(core: &mut Core<C>, seats: u32, stopped: u32) -> bool
    requires seats { length core.old.files ≡ seats }
    ensures steps { core.new ≡ after_order C.form core.old (round_without stopped seats) }
    ensures idle { result ≡ true → core.new ≡ core.old }
    ensures files { core.new.files ≡ core.old.files }
{
    let mut idle = true;
    for seat in 0..seats {
        if seat != stopped {
            idle &= step_is_idle(core, seat);
        }
    }
    idle
}
