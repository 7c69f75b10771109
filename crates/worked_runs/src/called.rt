//! Runs of the queue over files that are empty at first: each command is submitted while the run goes on.
ghost use Rattle.std.specs.Prelude.{◌≡◌, ◌<◌, ◌≤◌, IfSome, length};
ghost use Rattle.lin_report.specs.Object.{IsCommandOf, queue_object};

use crate::runs::{drive_seats, make_steps};
use event_core::{Core, CoreTurn, NotSubmitted};
use fast_slow_engine::Setup;
use lin_report::calls::{PUT, TAKE};
use lin_report::{Op, Reply};
use ms_queue::MsQueue;
use std::alloc::Global;

const PUT_7: Op = Op {
    code: PUT,
    key: 0,
    value: 7,
};

const PUT_8: Op = Op {
    code: PUT,
    key: 0,
    value: 8,
};

const ONE_TAKE: Op = Op {
    code: TAKE,
    key: 0,
    value: 0,
};

/// The run of one seat, whose file is empty.
fn one_empty_file(alloc: Global) -> Option<Core<MsQueue>>
    ensures seats { IfSome result (λ core. length core.files ≡ 1) }
{
    let files = vec![in alloc; Vec::new(alloc)].ok()?;
    let setup = Setup {
        seats: 1,
        cap: 8,
        limit: 3,
    };
    Core::new(alloc, setup, files).ok()
}

/// The run of two seats, whose files are empty.
fn two_empty_files(alloc: Global) -> Option<Core<MsQueue>>
    ensures seats { IfSome result (λ core. length core.files ≡ 2) }
{
    let files = vec![in alloc; Vec::new(alloc), Vec::new(alloc)].ok()?;
    let setup = Setup {
        seats: 2,
        cap: 8,
        limit: 3,
    };
    Core::new(alloc, setup, files).ok()
}

/// The seat and the reply of a call, by the place of its return.
fn told(core: &Core<MsQueue>, place: usize) -> Option<(u32, Reply)> {
    let line = core.receipts().get(place)?;
    Some((line.seat, line.reply))
}

/// Submits a command to a seat so often, while the seat takes it. The last answer.
fn submit_often(core: &mut Core<MsQueue>, seat: u32, op: Op, count: u32) -> Result<(), NotSubmitted>
    requires seat { seat < length core.old.files }
    requires command { IsCommandOf queue_object op }
    ensures seats { length core.new.files ≡ length core.old.files }
{
    for _ in 0..count {
        core.submit(seat, op)?;
    }
    Ok(())
}

#[test]
fn a_core_without_commands_takes_a_put_and_a_take(rt: HostRuntime) {
    let Some(mut core) = one_empty_file(rt.alloc()) else {
        panic!(rt; "no memory")
    };
    assert!(rt; !core.has_step(0));
    assert_eq!(rt; core.step(0), CoreTurn::Idle);
    assert_eq!(rt; core.submit(0, PUT_7), Ok(()));
    assert!(rt; core.has_step(0));
    make_steps(&mut core, 0, 14);
    assert_eq!(rt; core.receipts().len(), 0);
    assert!(rt; core.has_step(0));
    assert_eq!(rt; core.step(0), CoreTurn::Returned);
    assert_eq!(rt; told(&core, 0), Some((0, Reply::Done)));
    assert!(rt; !core.has_step(0));
    assert_eq!(rt; core.step(0), CoreTurn::Idle);
    assert_eq!(rt; core.submit(0, ONE_TAKE), Ok(()));
    make_steps(&mut core, 0, 7);
    assert_eq!(rt; core.step(0), CoreTurn::Returned);
    assert_eq!(rt; told(&core, 1), Some((0, Reply::Value(7))));
    assert_eq!(rt; core.step(0), CoreTurn::Idle);
    assert_eq!(rt; core.events().len(), 4);
}

#[test]
fn a_seat_that_was_idle_goes_on_and_commands_run_in_order(rt: HostRuntime) {
    let Some(mut core) = two_empty_files(rt.alloc()) else {
        panic!(rt; "no memory")
    };
    assert_eq!(rt; core.submit(1, PUT_7), Ok(()));
    assert_eq!(rt; core.step(0), CoreTurn::Idle);
    assert_eq!(rt; core.step(1), CoreTurn::Going);
    assert_eq!(rt; core.submit(0, ONE_TAKE), Ok(()));
    assert_eq!(rt; core.submit(1, PUT_8), Ok(()));
    assert!(rt; drive_seats(rt.alloc(), &mut core, 2, b"0 end\n1 end\n1 end\n1 end\n"));
    assert_eq!(rt; told(&core, 0), Some((0, Reply::Empty)));
    assert_eq!(rt; told(&core, 1), Some((1, Reply::Done)));
    assert_eq!(rt; told(&core, 2), Some((1, Reply::Done)));
    assert_eq!(rt; told(&core, 3), None);
    assert_eq!(rt; submit_often(&mut core, 0, ONE_TAKE, 2), Ok(()));
    assert!(rt; drive_seats(rt.alloc(), &mut core, 2, b"0 end\n0 end\n"));
    assert_eq!(rt; told(&core, 3), Some((0, Reply::Value(7))));
    assert_eq!(rt; told(&core, 4), Some((0, Reply::Value(8))));
    core.reset();
    assert!(rt; drive_seats(rt.alloc(), &mut core, 2, b"1 end\n0 end\n"));
    assert_eq!(rt; told(&core, 1), Some((0, Reply::Value(7))));
}

#[test]
fn a_seat_takes_as_many_commands_as_it_can_number(rt: HostRuntime) {
    let Some(mut core) = two_empty_files(rt.alloc()) else {
        panic!(rt; "no memory")
    };
    assert_eq!(rt; submit_often(&mut core, 0, ONE_TAKE, 65_535), Ok(()));
    assert_eq!(rt; core.submit(0, PUT_7), Err(NotSubmitted::Spent));
    assert_eq!(rt; core.submit(1, PUT_7), Ok(()));
    assert!(rt; drive_seats(rt.alloc(), &mut core, 2, b"1 end\n0 end\n0 end\n"));
    assert_eq!(rt; told(&core, 1), Some((0, Reply::Value(7))));
    assert_eq!(rt; told(&core, 2), Some((0, Reply::Empty)));
}
