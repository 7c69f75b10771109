//! Driving a core by a schedule: entry by entry, step by step.
ghost use Rattle.std.specs.Prelude.{◌≡◌, ℕ, ◌<◌, ◌||◌, All, length, not};
ghost use Rattle.event_core.specs.Cores.{core_stepped, core_turn, next_listed};
ghost use Rattle.schedule_runs.specs.Spans.{IsFirst, after_steps, ends_at, goes_on, reaches_at};
ghost use Rattle.schedule_runs.specs.Orders.{EntriesMade, EntryMade};

use event_core::{Core, CoreTurn};
use normal_traits::Normalized;
use script_reader::{ScheduleEntry, Span};

/// The most steps of one entry.
const STEP_LIMIT: u32 = 16_384;

/// Makes the entries of a schedule, one after the other. It takes no memory and cannot fail.
pub fn drive<C: Normalized>(core: &mut Core<C>, schedule: &[ScheduleEntry])
    requires seats { All (λ entry. entry.seat < length core.old.files) schedule.now }
    ensures follows { EntriesMade C.form schedule.now core.old core.new }
    ensures files { core.new.files ≡ core.old.files }
{
    for entry in schedule {
        follow(core, *entry);
    }
}

/// Makes one entry.
fn follow<C: Normalized>(core: &mut Core<C>, entry: ScheduleEntry)
    requires seat { entry.seat < length core.old.files }
    ensures made { EntryMade C.form entry core.old core.new }
    ensures files { core.new.files ≡ core.old.files }
{
    match entry.span {
        Span::Steps(count) => make_steps(core, entry.seat, count),
        Span::ToEnd => go_to_end(core, entry.seat),
        Span::ToExchange => go_to_exchange(core, entry.seat),
    }
}

/// Makes so many steps of a seat.
pub(crate) fn make_steps<C: Normalized>(core: &mut Core<C>, seat: u32, count: u32)
    requires seat { seat < length core.old.files }
    ensures steps { core.new ≡ after_steps C.form seat core.old count }
    ensures files { core.new.files ≡ core.old.files }
{
    for _ in 0..count {
        core.step(seat);
    }
}

/// Makes steps of a seat until one ends a call or finds the seat idle.
fn go_to_end<C: Normalized>(core: &mut Core<C>, seat: u32)
    requires seat { seat < length core.old.files }
    ensures steps { (n : ℕ) × IsFirst (ends_at C.form seat core.old) n × (core.new ≡ after_steps C.form seat core.old n) }
    ensures files { core.new.files ≡ core.old.files }
{
    for _ in 0..STEP_LIMIT {
        if step_ends(core, seat) {
            return;
        }
    }
}

/// Makes steps of a seat, one at least, until its next request is the exchange of an entry of a list, or a
/// step ends a call or finds the seat idle.
fn go_to_exchange<C: Normalized>(core: &mut Core<C>, seat: u32)
    requires seat { seat < length core.old.files }
    ensures steps { (n : ℕ) × IsFirst (reaches_at C.form seat core.old) n × (core.new ≡ after_steps C.form seat core.old n) }
    ensures files { core.new.files ≡ core.old.files }
{
    for _ in 0..STEP_LIMIT {
        if step_reaches(core, seat) {
            return;
        }
    }
}

/// Makes one step of a seat. Whether it ends a call or finds the seat idle.
fn step_ends<C: Normalized>(core: &mut Core<C>, seat: u32) -> bool
    requires seat { seat < length core.old.files }
    ensures step { core.new ≡ core_stepped C.form seat core.old }
    ensures ends { result ≡ not (goes_on (core_turn C.form seat core.old)) }
    ensures files { core.new.files ≡ core.old.files }
{
    match core.step(seat) {
        CoreTurn::Going => false,
        CoreTurn::Idle | CoreTurn::Returned => true,
    }
}

/// Makes one step of a seat. Whether it ends a call or finds the seat idle, or the seat's next request is
/// the exchange of an entry of a list.
fn step_reaches<C: Normalized>(core: &mut Core<C>, seat: u32) -> bool
    requires seat { seat < length core.old.files }
    ensures step { core.new ≡ core_stepped C.form seat core.old }
    ensures reaches { result ≡ (not (goes_on (core_turn C.form seat core.old)) || next_listed seat core.new) }
    ensures files { core.new.files ≡ core.old.files }
{
    step_ends(core, seat) || core.next_is_listed(seat)
}
