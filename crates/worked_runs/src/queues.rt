//! Runs of the queue, by the lines of their calls.
use crate::runs::{drive_seats, make_steps, one_file, two_files};
use event_core::CoreTurn;
use fast_slow_engine::{Machine, Setup, Turn};
use lin_report::calls::{PUT, TAKE};
use lin_report::{Op, Path, PendingCall, Receipt, Reply};
use ms_queue::MsQueue;
use step_memory::Seen;

const PUT_7: Op = Op {
    code: PUT,
    key: 0,
    value: 7,
};

const ONE_TAKE: Op = Op {
    code: TAKE,
    key: 0,
    value: 0,
};

/// The line of call NUMBER of a seat on its fast path.
fn line(seat: u32, number: u32, op: Op, reply: Reply, begin: u64, end: u64) -> Receipt {
    Receipt {
        seat,
        number,
        op,
        reply,
        begin,
        end,
        path: Path::Fast,
    }
}

/// Call NUMBER of a seat, which runs on its fast path.
fn waiting(seat: u32, number: u32, op: Op, begin: u64) -> PendingCall {
    PendingCall {
        seat,
        number,
        op,
        begin,
        path: Path::Fast,
    }
}

#[test]
fn a_call_is_pending_from_its_begin_tick_on(rt: HostRuntime) {
    let setup = Setup {
        seats: 2,
        cap: 8,
        limit: 3,
    };
    let mut machine = Machine::<MsQueue>::new(1, setup);
    machine.start(ONE_TAKE);
    assert_eq!(rt; machine.pending(), None);
    let seen = Seen {
        before: 5,
        won: true,
    };
    assert_eq!(rt; machine.feed(seen), Turn::Going);
    assert_eq!(rt; machine.pending(), Some(waiting(1, 1, ONE_TAKE, 5)));
}

#[test]
fn calls_are_pending_in_order_of_their_begin_ticks(rt: HostRuntime) {
    let Some(mut core) = two_files(rt.alloc(), b"put 7\n", b"take\n", 8) else {
        panic!(rt; "no memory")
    };
    make_steps(&mut core, 1, 1);
    make_steps(&mut core, 0, 2);
    assert_eq!(rt;
        core.pending().as_slice(),
        [waiting(1, 1, ONE_TAKE, 0), waiting(0, 1, PUT_7, 1)].as_slice()
    );
    make_steps(&mut core, 1, 16);
    assert_eq!(rt;
        core.pending().as_slice(),
        [waiting(0, 1, PUT_7, 1)].as_slice()
    );
}

#[test]
fn a_put_takes_15_steps_and_a_take_8(rt: HostRuntime) {
    let Some(mut core) = one_file(rt.alloc(), b"put 7\ntake\n", 8) else {
        panic!(rt; "no memory")
    };
    make_steps(&mut core, 0, 14);
    assert_eq!(rt; core.receipts().len(), 0);
    assert_eq!(rt; core.words().get(46), Some(&33_554_437));
    assert_eq!(rt; core.words().get(21), Some(&33_554_437));
    assert_eq!(rt; core.step(0), CoreTurn::Returned);
    make_steps(&mut core, 0, 7);
    assert_eq!(rt;
        core.receipts(),
        [line(0, 1, PUT_7, Reply::Done, 0, 1)].as_slice()
    );
    assert_eq!(rt; core.step(0), CoreTurn::Returned);
    assert_eq!(rt;
        core.receipts().get(1),
        Some(&line(0, 2, ONE_TAKE, Reply::Value(7), 2, 3))
    );
    assert_eq!(rt; core.step(0), CoreTurn::Idle);
    assert_eq!(rt; core.events().len(), 4);
}

#[test]
fn a_take_between_the_exchange_and_the_swing_of_the_tail_finds_the_value(rt: HostRuntime) {
    let Some(mut core) = two_files(rt.alloc(), b"put 7\n", b"take\n", 8) else {
        panic!(rt; "no memory")
    };
    make_steps(&mut core, 0, 11);
    assert!(rt; core.next_is_listed(0));
    make_steps(&mut core, 0, 1);
    make_steps(&mut core, 1, 12);
    make_steps(&mut core, 0, 3);
    assert_eq!(rt;
        core.receipts(),
        [
            line(1, 1, ONE_TAKE, Reply::Value(7), 1, 2),
            line(0, 1, PUT_7, Reply::Done, 0, 3)
        ]
        .as_slice()
    );
}

#[test]
fn the_second_put_of_one_block_is_exhausted(rt: HostRuntime) {
    let Some(mut core) = one_file(rt.alloc(), b"put 7\nput 7\n", 1) else {
        panic!(rt; "no memory")
    };
    make_steps(&mut core, 0, 21);
    assert_eq!(rt;
        core.receipts(),
        [
            line(0, 1, PUT_7, Reply::Done, 0, 1),
            line(0, 2, PUT_7, Reply::Exhausted, 2, 3)
        ]
        .as_slice()
    );
    assert_eq!(rt; core.words().get(2), Some(&1));
}

#[test]
fn a_put_that_loses_once_keeps_its_block_in_hand(rt: HostRuntime) {
    let Some(mut core) = two_files(rt.alloc(), b"put 7\n", b"put 7\n", 8) else {
        panic!(rt; "no memory")
    };
    make_steps(&mut core, 0, 11);
    make_steps(&mut core, 1, 12);
    make_steps(&mut core, 1, 3);
    assert_eq!(rt;
        core.receipts(),
        [line(1, 1, PUT_7, Reply::Done, 1, 2)].as_slice()
    );
    make_steps(&mut core, 0, 12);
    assert_eq!(rt;
        core.receipts().get(1),
        Some(&line(0, 1, PUT_7, Reply::Done, 0, 3))
    );
    core.sort_by_begin();
    assert_eq!(rt;
        core.receipts().get(0),
        Some(&line(0, 1, PUT_7, Reply::Done, 0, 3))
    );
    assert_eq!(rt; core.words().get(2), Some(&2));
}

#[test]
fn a_schedule_drives_a_take_between_an_exchange_and_the_end_of_its_put(rt: HostRuntime) {
    let Some(mut core) = two_files(rt.alloc(), b"put 7\n", b"take\n", 8) else {
        panic!(rt; "no memory")
    };
    let schedule = b"0 exchange\n0 1\n1 end\n0 end\n";
    assert!(rt; drive_seats(rt.alloc(), &mut core, 2, schedule));
    core.sort_by_begin();
    assert_eq!(rt;
        core.receipts(),
        [
            line(0, 1, PUT_7, Reply::Done, 0, 3),
            line(1, 1, ONE_TAKE, Reply::Value(7), 1, 2)
        ]
        .as_slice()
    );
}

#[test]
fn an_exchange_entry_makes_one_step_at_least(rt: HostRuntime) {
    let Some(mut core) = two_files(rt.alloc(), b"put 7\n", b"take\n", 8) else {
        panic!(rt; "no memory")
    };
    assert!(rt; drive_seats(rt.alloc(), &mut core, 2, b"0 exchange\n1 end\n"));
    assert!(rt; core.next_is_listed(0));
    assert_eq!(rt;
        core.pending().as_slice(),
        [waiting(0, 1, PUT_7, 0)].as_slice()
    );
    assert!(rt; drive_seats(rt.alloc(), &mut core, 2, b"0 exchange\n0 end\n"));
    assert_eq!(rt;
        core.receipts(),
        [
            line(1, 1, ONE_TAKE, Reply::Empty, 1, 2),
            line(0, 1, PUT_7, Reply::Done, 0, 3)
        ]
        .as_slice()
    );
}
