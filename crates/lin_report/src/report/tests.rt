//! Worked reports as text, and the longest lines.
ghost use Rattle.std.specs.Prelude.{ℕ, ◌≡◌, ◌+◌, ◌≤◌, length};
ghost use Rattle.lin_report.specs.Calls.{report_of};
ghost use Rattle.lin_report.specs.Writing.{CanWrite};

use super::{report_room, write_report, write_summary};
use crate::calls::{
    ADD, DEL, GET, HAS, MIN, Op, PEEK, PUT, Path, PendingCall, REM, Receipt, Reply, SET, TAKE,
};
use crate::objects::NoMemory;
use std::alloc::Global;
use std::test::Fail;

/// The report, in the room that is made for it.
fn written_report(
    alloc: Global,
    receipts: &[Receipt],
    pending: &[PendingCall],
    overtaken: Option<u64>,
) -> Result<Vec<u8>, NoMemory>
    requires calls { length receipts.now + length pending.now ≤ 524280 }
    requires report { CanWrite (report_of receipts.now pending.now) overtaken }
{
    let calls = receipts.len() + pending.len();
    let mut room = report_room(alloc, calls as u32)?;
    write_report(&mut room, receipts, pending, overtaken);
    Ok(room)
}

#[test]
fn a_report_without_a_call(rt: HostRuntime) -> Result<(), Fail> {
    let text = written_report(rt.alloc(), &[], &[], Some(0))?;
    assert_eq!(rt;
        text.as_slice(),
        b"calls 0 fast 0 slow 0 exhausted 0 pending 0 overtaken 0\n".as_slice()
    );
    Ok(())
}

#[test]
fn an_answered_call_and_a_pending_one(rt: HostRuntime) -> Result<(), Fail> {
    let put = PendingCall {
        seat: 0,
        number: 1,
        op: Op {
            code: PUT,
            key: 0,
            value: 7,
        },
        begin: 0,
        path: Path::Slow,
    };
    let take = Receipt {
        seat: 1,
        number: 1,
        op: Op {
            code: TAKE,
            key: 0,
            value: 0,
        },
        reply: Reply::Value(7),
        begin: 1,
        end: 2,
        path: Path::Slow,
    };
    let text = written_report(rt.alloc(), &[take], &[put], Some(0))?;
    assert_eq!(rt;
        text.as_slice(),
        b"0 1 put 7 pending 0 - slow\n1 1 take value 7 1 2 slow\ncalls 2 fast 0 slow 2 exhausted 0 pending 1 overtaken 0\n".as_slice()
    );
    Ok(())
}

#[test]
fn a_report_that_tells_no_overtaking(rt: HostRuntime) -> Result<(), Fail> {
    let put = Receipt {
        seat: 0,
        number: 1,
        op: Op {
            code: PUT,
            key: 0,
            value: 7,
        },
        reply: Reply::Done,
        begin: 0,
        end: 1,
        path: Path::Fast,
    };
    let take = Receipt {
        seat: 0,
        number: 2,
        op: Op {
            code: TAKE,
            key: 0,
            value: 0,
        },
        reply: Reply::Empty,
        begin: 2,
        end: 3,
        path: Path::Fast,
    };
    let text = written_report(rt.alloc(), &[put, take], &[], None)?;
    assert_eq!(rt;
        text.as_slice(),
        b"0 1 put 7 done 0 1 fast\n0 2 take empty 2 3 fast\ncalls 2 fast 2 slow 0 exhausted 0 pending 0\n".as_slice()
    );
    Ok(())
}

/// An operation.
fn op(code: u8, key: u32, value: u32) -> Op
    ensures { result ≡ record { code = code; key = key; value = value } }
{
    Op { code, key, value }
}

/// The line of call NUMBER of a seat, with its begin and end tick.
fn line(call: (u32, u32), op: Op, reply: Reply, ticks: (u64, u64), path: Path) -> Receipt
    ensures { result ≡ record { seat = call.0; number = call.1; op = op; reply = reply; begin = ticks.0; end = ticks.1; path = path } }
{
    Receipt {
        seat: call.0,
        number: call.1,
        op,
        reply,
        begin: ticks.0,
        end: ticks.1,
        path,
    }
}

#[test]
fn the_commands_of_a_set_and_of_a_map(rt: HostRuntime) -> Result<(), Fail> {
    let receipts = [
        line((0, 1), op(ADD, 1048575, 0), Reply::Yes, (0, 1), Path::Fast),
        line((0, 2), op(DEL, 5, 0), Reply::No, (2, 5), Path::Slow),
        line((1, 1), op(HAS, 5, 0), Reply::No, (3, 4), Path::Fast),
        line((2, 1), op(SET, 1, 9), Reply::Yes, (6, 7), Path::Fast),
        line((2, 2), op(GET, 1, 0), Reply::Value(9), (8, 9), Path::Fast),
        line(
            (2, 3),
            op(REM, 1, 0),
            Reply::Exhausted,
            (10, 11),
            Path::Slow,
        ),
        line((2, 4), op(GET, 2, 0), Reply::Absent, (12, 13), Path::Fast),
    ];
    let text = written_report(rt.alloc(), &receipts, &[], Some(1))?;
    assert_eq!(rt;
        text.as_slice(),
        b"0 1 add 1048575 yes 0 1 fast\n0 2 del 5 no 2 5 slow\n1 1 has 5 no 3 4 fast\n2 1 set 1 9 yes 6 7 fast\n2 2 get 1 value 9 8 9 fast\n2 3 rem 1 exhausted 10 11 slow\n2 4 get 2 absent 12 13 fast\ncalls 7 fast 5 slow 2 exhausted 1 pending 0 overtaken 1\n".as_slice()
    );
    Ok(())
}

#[test]
fn the_commands_without_a_number(rt: HostRuntime) -> Result<(), Fail> {
    let receipts = [
        line((0, 1), op(PEEK, 0, 0), Reply::Empty, (0, 1), Path::Fast),
        line((0, 2), op(TAKE, 0, 0), Reply::Empty, (2, 3), Path::Fast),
        line((1, 1), op(MIN, 0, 0), Reply::Value(3), (4, 5), Path::Slow),
    ];
    let text = written_report(rt.alloc(), &receipts, &[], Some(0))?;
    assert_eq!(rt;
        text.as_slice(),
        b"0 1 peek empty 0 1 fast\n0 2 take empty 2 3 fast\n1 1 min value 3 4 5 slow\ncalls 3 fast 2 slow 1 exhausted 0 pending 0 overtaken 0\n".as_slice()
    );
    Ok(())
}

#[test]
fn the_longest_line_has_62_bytes(rt: HostRuntime) -> Result<(), Fail> {
    let set = Receipt {
        seat: 7,
        number: 65535,
        op: Op {
            code: SET,
            key: 1048575,
            value: 4294967295,
        },
        reply: Reply::Exhausted,
        begin: 1048558,
        end: 1048559,
        path: Path::Slow,
    };
    let line = b"7 65535 set 1048575 4294967295 exhausted 1048558 1048559 slow\n";
    let text = written_report(rt.alloc(), &[set], &[], Some(524_280))?;
    assert_eq!(rt; line.len(), 62);
    assert!(rt; text.as_slice().starts_with(line));
    assert!(rt;
        text.as_slice().ends_with(
            b"\ncalls 1 fast 0 slow 1 exhausted 1 pending 0 overtaken 524280\n"
        )
    );
    assert_eq!(rt; text.len(), 62 + 61);
    Ok(())
}

#[test]
fn a_summary_alone(rt: HostRuntime) -> Result<(), Fail> {
    let add = Receipt {
        seat: 0,
        number: 1,
        op: Op {
            code: ADD,
            key: 5,
            value: 0,
        },
        reply: Reply::Yes,
        begin: 0,
        end: 1,
        path: Path::Fast,
    };
    let del = PendingCall {
        seat: 0,
        number: 2,
        op: Op {
            code: DEL,
            key: 5,
            value: 0,
        },
        begin: 2,
        path: Path::Slow,
    };
    let mut room = report_room(rt.alloc(), 0)?;
    assert_eq!(rt; room.len(), 0);
    write_summary(&mut room, &[add], &[del], Some(0));
    assert_eq!(rt;
        room.as_slice(),
        b"calls 2 fast 1 slow 1 exhausted 0 pending 1 overtaken 0\n".as_slice()
    );
    Ok(())
}

#[test]
fn room_for_two_calls(rt: HostRuntime) -> Result<(), Fail> {
    let room = report_room(rt.alloc(), 2)?;
    assert!(rt; room.is_empty());
    assert!(rt; room.capacity() >= 256);
    Ok(())
}
