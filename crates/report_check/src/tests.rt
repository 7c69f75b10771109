//! Worked reports and orders, as a reader of the formats would judge them by hand.
ghost use Rattle.std.specs.Prelude.{◌≤◌, length, All};
ghost use Rattle.lin_report.specs.Object.{queue_object};
ghost use Rattle.lin_report.specs.Calls.{report_of};
ghost use Rattle.report_check.specs.Orders.{NAME_LIMIT, IsName};
ghost use Rattle.report_check.specs.Judging.{CanJudge};

use super::*;
use lin_report::calls::{PUT, SET, TAKE};
use lin_report::{Client, NoMemory, Op, Path, PendingCall, Receipt, Reply};
use script_reader::{ScriptFault, cause_number};
use std::alloc::Global;
use std::test::Fail;

mod reports;

/// The place and the number of the reason, if a queue's order is not legal.
fn objection(
    alloc: Global,
    receipts: &[Receipt],
    pending: &[PendingCall],
    order: &[Named],
) -> Result<Option<(u32, u32)>, NoMemory>
    requires report { CanJudge queue_object (report_of receipts.now pending.now) }
    requires names { All IsName order.now }
    requires few { length order.now ≤ NAME_LIMIT }
{
    Ok(
        match judge(alloc, Client::Queue, receipts, pending, order)? {
            Verdict::Legal => None,
            Verdict::NotLegal(objection) => {
                Some((objection.place, reason_number(objection.reason)))
            }
        },
    )
}

const PUT_7: Op = Op {
    code: PUT,
    key: 0,
    value: 7,
};

const TAKE_ONE: Op = Op {
    code: TAKE,
    key: 0,
    value: 0,
};

const THE_PUT: Receipt = Receipt {
    seat: 0,
    number: 1,
    op: PUT_7,
    reply: Reply::Done,
    begin: 0,
    end: 3,
    path: Path::Slow,
};

const FIRST_TAKE: Receipt = Receipt {
    seat: 1,
    number: 1,
    op: TAKE_ONE,
    reply: Reply::Value(7),
    begin: 1,
    end: 2,
    path: Path::Slow,
};

const SECOND_TAKE: Receipt = Receipt {
    seat: 1,
    number: 2,
    op: TAKE_ONE,
    reply: Reply::Empty,
    begin: 4,
    end: 5,
    path: Path::Slow,
};

const PENDING_PUT: PendingCall = PendingCall {
    seat: 0,
    number: 1,
    op: PUT_7,
    begin: 0,
    path: Path::Slow,
};

const PUT_NAME: Named = Named { seat: 0, number: 1 };

const FIRST_NAME: Named = Named { seat: 1, number: 1 };

const SECOND_NAME: Named = Named { seat: 1, number: 2 };

#[test]
fn orders_of_a_whole_report(rt: HostRuntime) -> Result<(), Fail> {
    let report = [THE_PUT, FIRST_TAKE, SECOND_TAKE];
    let legal = [PUT_NAME, FIRST_NAME, SECOND_NAME];
    assert_eq!(rt; objection(rt.alloc(), &report, &[], &legal)?, None);
    let against_ticks = [SECOND_NAME, PUT_NAME, FIRST_NAME];
    assert_eq!(rt;
        objection(rt.alloc(), &report, &[], &against_ticks)?,
        Some((2, 3))
    );
    let short = [PUT_NAME, FIRST_NAME];
    assert_eq!(rt; objection(rt.alloc(), &report, &[], &short)?, Some((3, 5)));
    let twice = [PUT_NAME, PUT_NAME];
    assert_eq!(rt; objection(rt.alloc(), &report, &[], &twice)?, Some((2, 2)));
    Ok(())
}

#[test]
fn orders_of_a_report_with_a_pending_call(rt: HostRuntime) -> Result<(), Fail> {
    let report = [FIRST_TAKE];
    let pending = [PENDING_PUT];
    let alone = [FIRST_NAME];
    assert_eq!(rt;
        objection(rt.alloc(), &report, &pending, &alone)?,
        Some((1, 4))
    );
    let both = [PUT_NAME, FIRST_NAME];
    assert_eq!(rt; objection(rt.alloc(), &report, &pending, &both)?, None);
    let unknown = [SECOND_NAME];
    assert_eq!(rt;
        objection(rt.alloc(), &report, &pending, &unknown)?,
        Some((1, 1))
    );
    Ok(())
}

/// The line and the number of the cause, if an order was refused.
fn refusal(read: Result<Vec<Named>, ScriptFault>) -> Option<(u32, u32)> {
    match read {
        Err(ScriptFault::Refused(refusal)) => Some((refusal.line, cause_number(refusal.cause))),
        Err(ScriptFault::NoMemory) => Some((0, 0)),
        Ok(_) => None,
    }
}

#[test]
fn orders_are_read(rt: HostRuntime) -> Result<(), Fail> {
    let order = read_order(rt.alloc(), b"0 1\n\n  1   2")?;
    assert_eq!(rt; order.as_slice(), [PUT_NAME, SECOND_NAME].as_slice());
    for (file, line, cause) in [
        (b"0 1\n0\n".as_slice(), 2, 1),
        (b"0 1 1\n".as_slice(), 1, 1),
        (b"0 x\n".as_slice(), 1, 2),
        (b"x 1\n".as_slice(), 1, 2),
        (b"8 0\n".as_slice(), 1, 2),
        (b"0 65536\n".as_slice(), 1, 2),
        (b"7 65535\n8 1\n".as_slice(), 2, 6),
    ] {
        assert_eq!(rt;
            refusal(read_order(rt.alloc(), file)),
            Some((line, cause)),
            "{file:?}"
        );
    }
    Ok(())
}

#[test]
fn lines_of_calls_are_read(rt: HostRuntime) -> Result<(), Fail> {
    assert_eq!(rt;
        read_call_line(Client::Queue, b"1 2 take value 7 4 5 slow"),
        Some(CallLine {
            seat: 1,
            number: 2,
            op: TAKE_ONE,
            answer: Some((Reply::Value(7), 5)),
            begin: 4,
            path: Path::Slow,
        })
    );
    assert_eq!(rt;
        read_call_line(
            Client::Tree,
            b"7 65535 set 1048575 4294967295 pending 1048575 - fast"
        ),
        Some(CallLine {
            seat: 7,
            number: 65535,
            op: Op {
                code: SET,
                key: 1048575,
                value: 4294967295,
            },
            answer: None,
            begin: 1048575,
            path: Path::Fast,
        })
    );
    Ok(())
}

#[test]
fn lines_of_commands_that_only_look(rt: HostRuntime) -> Result<(), Fail> {
    for (client, line, told) in [
        (
            Client::Queue,
            b"0 1 peek value 4294967295 0 1 fast".as_slice(),
            true,
        ),
        (Client::Queue, b"0 1 peek empty 0 1 slow", true),
        (Client::List, b"0 1 min value 5 0 1 fast", true),
        (Client::List, b"0 1 min empty 0 1 fast", true),
        (Client::List, b"0 1 min pending 0 - fast", true),
        (Client::Queue, b"0 1 peek 7 value 7 0 1 fast", false),
        (Client::Queue, b"0 1 peek exhausted 0 1 slow", false),
        (Client::Queue, b"0 1 min empty 0 1 fast", false),
        (Client::List, b"0 1 min exhausted 0 1 slow", false),
        (Client::List, b"0 1 min yes 0 1 slow", false),
        (Client::Buckets, b"0 1 min empty 0 1 fast", false),
        (Client::Tree, b"0 1 min empty 0 1 fast", false),
    ] {
        assert_eq!(rt; read_call_line(client, line).is_some(), told, "{line:?}");
    }
    Ok(())
}

#[test]
fn other_lines_are_of_no_call(rt: HostRuntime) -> Result<(), Fail> {
    for (client, line) in [
        (Client::Queue, b"8 1 take empty 4 5 slow".as_slice()),
        (Client::Queue, b"1 0 take empty 4 5 slow".as_slice()),
        (Client::Queue, b"1 65536 take empty 4 5 slow".as_slice()),
        (Client::Queue, b"1 02 take empty 4 5 slow".as_slice()),
        (Client::Queue, b"1 2 take yes 4 5 slow".as_slice()),
        (Client::Queue, b"1 2 take empty 4 - slow".as_slice()),
        (Client::Queue, b"1 2 take pending 4 5 slow".as_slice()),
        (Client::Queue, b"1 2 take empty 4 1048576 slow".as_slice()),
        (Client::Queue, b"1 2 take empty 4 5 slow ".as_slice()),
        (Client::Queue, b"1 2  take empty 4 5 slow".as_slice()),
        (Client::List, b"1 2 take empty 4 5 slow".as_slice()),
        (Client::List, b"1 2 has 5 exhausted 4 5 slow".as_slice()),
        (Client::List, b"1 2 add 1048576 yes 4 5 slow".as_slice()),
    ] {
        assert_eq!(rt; read_call_line(client, line), None, "{line:?}");
    }
    Ok(())
}

/// With how many lines of calls of a queue the text begins, and how many bytes stand behind them.
fn beginning(alloc: Global, text: &[u8]) -> Result<(usize, usize), NoMemory> {
    let begun = read_calls(alloc, Client::Queue, text)?;
    Ok((begun.calls.len(), begun.rest.len()))
}

#[test]
fn lines_are_read_as_far_as_calls_may_follow(rt: HostRuntime) -> Result<(), Fail> {
    let first = b"0 1 put 7 done 0 3 slow\n1 1 take value 7 1 2 slow\n";
    assert_eq!(rt; beginning(rt.alloc(), first)?, (2, 0));
    for (lines, text) in [
        (
            3,
            b"0 1 put 7 done 0 3 slow\n1 1 take value 7 1 2 slow\n1 2 take empty 4 5 slow\n".as_slice(),
        ),
        (0, b"0 1 put 7 done 0 0 slow\n".as_slice()),
        (0, b"0 2 put 7 done 0 3 slow\n".as_slice()),
        (0, b"0 1 put 7 done 0 3 slow".as_slice()),
        (
            1,
            b"0 1 put 7 done 0 3 slow\n1 1 take empty 0 4 slow\n".as_slice(),
        ),
        (
            1,
            b"0 1 put 7 done 0 3 slow\n1 1 take empty 3 4 slow\n".as_slice(),
        ),
        (
            1,
            b"0 1 put 7 done 0 3 slow\n1 1 take empty 1 3 slow\n".as_slice(),
        ),
        (
            1,
            b"0 1 put 7 done 0 3 slow\n0 2 take value 7 1 2 slow\n".as_slice(),
        ),
        (
            1,
            b"0 1 put 7 pending 0 - slow\n0 2 take value 7 1 2 slow\n".as_slice(),
        ),
        (
            1,
            b"0 1 put 7 done 0 3 slow\n0 3 take value 7 4 5 slow\n".as_slice(),
        ),
    ] {
        let (read, _) = beginning(rt.alloc(), text)?;
        assert_eq!(rt; read, lines, "{text:?}");
    }
    Ok(())
}
