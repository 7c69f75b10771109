//! Ports of a queue that a test drives step by step.
ghost use Rattle.std.specs.Prelude.{◌≡◌, true, [], ◌∷◌};
ghost use Rattle.lin_report.specs.Object.{IsCommandOf, queue_object};
ghost use Rattle.fast_slow_engine.specs.PhaseTable.{rests};
ghost use Rattle.thread_tests.specs.Driven.{IsRoot, Stays};

use fast_slow_engine::{Machine, Turn};
use lin_report::{Op, Receipt};
use ms_queue::MsQueue;
use shared_memory::{SeatPort, Shared, Totals};

/// A step of the seat, where a call of it runs, and the line that it returned.
pub fn step(
    shared: &Shared<MsQueue>,
    port: &mut SeatPort<MsQueue>,
    machine: &mut Machine<MsQueue>,
) -> Option<Receipt>
    requires table { port.old.table ≡ shared.now.table }
    requires same { machine.old ≡ port.old.view.machine }
    ensures table { port.new.table ≡ shared.now.table }
    ensures same { machine.new ≡ port.new.view.machine }
    ensures stays { Stays port.old.view port.new.view }
{
    if machine.is_idle() {
        return None;
    }
    match shared.advance(port, machine) {
        Turn::Going => None,
        Turn::Returned(receipt) => Some(receipt),
    }
}

/// The first step of the seat's next call, where none runs.
pub fn begin(
    shared: &Shared<MsQueue>,
    port: &mut SeatPort<MsQueue>,
    machine: &mut Machine<MsQueue>,
    op: Op,
)
    requires table { port.old.table ≡ shared.now.table }
    requires same { machine.old ≡ port.old.view.machine }
    requires command { IsCommandOf queue_object op }
    ensures table { port.new.table ≡ shared.now.table }
    ensures same { machine.new ≡ port.new.view.machine }
    ensures stays { Stays port.old.view port.new.view }
{
    if machine.is_idle() && machine.number() < 65535 {
        machine.start(op);
        shared.advance(port, machine);
    }
}

/// Steps of the seat up to the end of its call, a hundred at most.
pub fn drive(
    shared: &Shared<MsQueue>,
    port: &mut SeatPort<MsQueue>,
    machine: &mut Machine<MsQueue>,
) -> Option<Receipt>
    requires table { port.old.table ≡ shared.now.table }
    requires same { machine.old ≡ port.old.view.machine }
    ensures table { port.new.table ≡ shared.now.table }
    ensures same { machine.new ≡ port.new.view.machine }
    ensures stays { Stays port.old.view port.new.view }
{
    for _ in 0..100u32 {
        if let Some(receipt) = step(shared, port, machine) {
            return Some(receipt);
        }
    }
    None
}

/// The counters, where the port is that of the one seat, and its call has ended.
pub fn close_one(
    shared: Shared<MsQueue>,
    port: SeatPort<MsQueue>,
    machine: &Machine<MsQueue>,
) -> Option<Totals>
    requires table { port.table ≡ shared.table }
    requires same { machine.now ≡ port.view.machine }
    requires root { IsRoot 0 port.view }
{
    if !machine.is_idle() {
        return None;
    }
    Some(shared.close(port))
}

/// Steps of two seats in turn, a hundred each, and the line of each one.
pub fn alternate(
    shared: &Shared<MsQueue>,
    first: &mut SeatPort<MsQueue>,
    one: &mut Machine<MsQueue>,
    second: &mut SeatPort<MsQueue>,
    two: &mut Machine<MsQueue>,
) -> (Option<Receipt>, Option<Receipt>)
    requires table { (first.old.table ≡ shared.now.table) × (second.old.table ≡ shared.now.table) }
    requires same { (one.old ≡ first.old.view.machine) × (two.old ≡ second.old.view.machine) }
    ensures table { (first.new.table ≡ shared.now.table) × (second.new.table ≡ shared.now.table) }
    ensures same { (one.new ≡ first.new.view.machine) × (two.new ≡ second.new.view.machine) }
    ensures stays { Stays first.old.view first.new.view × Stays second.old.view second.new.view }
{
    let mut lines = (None, None);
    for _ in 0..100u32 {
        if let Some(line) = step(shared, first, one) {
            lines.0 = Some(line);
        }
        if let Some(line) = step(shared, second, two) {
            lines.1 = Some(line);
        }
    }
    lines
}

/// The counters, where the first port has split off the second alone, and both calls have ended.
pub fn close_two(
    shared: Shared<MsQueue>,
    mut first: SeatPort<MsQueue>,
    one: &Machine<MsQueue>,
    second: SeatPort<MsQueue>,
    two: &Machine<MsQueue>,
) -> Option<Totals>
    requires table { (first.table ≡ shared.table) × (second.table ≡ shared.table) }
    requires same { (one.now ≡ first.view.machine) × (two.now ≡ second.view.machine) }
    requires root { IsRoot 1 first.view }
    requires seat { second.view.machine.seat ≡ 1 }
{
    if !one.is_idle() || !two.is_idle() {
        return None;
    }
    shared.gather(&mut first, second);
    Some(shared.close(first))
}
