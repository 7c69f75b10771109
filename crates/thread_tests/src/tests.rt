//! Ports of one memory, driven by one thread.
use crate::ports::{alternate, begin, close_one, close_two, drive};
use fast_slow_engine::{Machine, Setup};
use lin_report::calls::{PUT, TAKE};
use lin_report::{Op, Path, Receipt, Reply};
use ms_queue::MsQueue;
use shared_memory::Shared;

const PUT_7: Op = Op {
    code: PUT,
    key: 0,
    value: 7,
};

const ONE_TAKE: Op = Op {
    code: TAKE,
    key: 0,
    value: 0,
};

/// The line of call NUMBER of a seat on its fast path.
fn line(seat: u32, number: u32, op: Op, reply: Reply, begin: u64, end: u64) -> Receipt {
    Receipt {
        seat,
        number,
        op,
        reply,
        begin,
        end,
        path: Path::Fast,
    }
}

#[test]
fn one_port_puts_and_takes(rt: HostRuntime) {
    let setup = Setup {
        seats: 1,
        cap: 8,
        limit: 3,
    };
    let Ok((shared, mut port)) = Shared::<MsQueue>::make(rt.alloc(), setup) else {
        panic!(rt; "no memory")
    };
    let mut machine = Machine::<MsQueue>::new(0, setup);
    begin(&shared, &mut port, &mut machine, PUT_7);
    let put = drive(&shared, &mut port, &mut machine);
    assert_eq!(rt; put, Some(line(0, 1, PUT_7, Reply::Done, 0, 1)));
    begin(&shared, &mut port, &mut machine, ONE_TAKE);
    let took = drive(&shared, &mut port, &mut machine);
    assert_eq!(rt; took, Some(line(0, 2, ONE_TAKE, Reply::Value(7), 2, 3)));
    let Some(totals) = close_one(shared, port, &machine) else {
        panic!(rt; "a call runs")
    };
    assert_eq!(rt; totals.ticks, 4);
    assert_eq!(rt; totals.claimed, 1);
}

#[test]
fn two_ports_take_in_turn(rt: HostRuntime) {
    let setup = Setup {
        seats: 2,
        cap: 8,
        limit: 3,
    };
    let Ok((shared, mut first)) = Shared::<MsQueue>::make(rt.alloc(), setup) else {
        panic!(rt; "no memory")
    };
    let mut second = shared.split(&mut first, 1);
    let mut one = Machine::<MsQueue>::new(0, setup);
    let mut two = Machine::<MsQueue>::new(1, setup);
    begin(&shared, &mut first, &mut one, ONE_TAKE);
    begin(&shared, &mut second, &mut two, ONE_TAKE);
    let lines = alternate(&shared, &mut first, &mut one, &mut second, &mut two);
    assert_eq!(rt; lines.0, Some(line(0, 1, ONE_TAKE, Reply::Empty, 0, 2)));
    assert_eq!(rt; lines.1, Some(line(1, 1, ONE_TAKE, Reply::Empty, 1, 3)));
    let Some(totals) = close_two(shared, first, &one, second, &two) else {
        panic!(rt; "a call runs")
    };
    assert_eq!(rt; totals.ticks, 4);
    assert_eq!(rt; totals.claimed, 0);
}
