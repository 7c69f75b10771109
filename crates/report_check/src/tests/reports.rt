//! Worked reports that are read, or refused, and judged.
use crate::*;
use lin_report::{Client, NoMemory};
use std::alloc::Global;
use std::test::Fail;

/// The line at which a queue's report is refused, if it is.
fn line_at_fault(alloc: Global, text: &[u8]) -> Result<Option<u32>, NoMemory> {
    match read_report(alloc, text, Client::Queue) {
        Ok(_) => Ok(None),
        Err(ReportFault::TooLong) => Ok(Some(0)),
        Err(ReportFault::AtFault(line)) => Ok(Some(line)),
        Err(ReportFault::NoMemory) => Err(NoMemory),
    }
}

#[test]
fn reports_are_read(rt: HostRuntime) -> Result<(), Fail> {
    for text in [
        b"0 1 put 7 done 0 3 slow\n1 1 take value 7 1 2 slow\n1 2 take empty 4 5 slow\ncalls 3 fast 0 slow 3 exhausted 0 pending 0 overtaken 0\n".as_slice(),
        b"0 1 put 7 pending 0 - slow\n1 1 take value 7 1 2 slow\ncalls 2 fast 0 slow 2 exhausted 0 pending 1 overtaken 56\n".as_slice(),
        b"0 1 put 7 done 0 1 fast\n0 2 put 8 exhausted 2 3 fast\ncalls 2 fast 2 slow 0 exhausted 1 pending 0\n".as_slice(),
        b"calls 0 fast 0 slow 0 exhausted 0 pending 0 overtaken 0\n".as_slice(),
    ] {
        assert_eq!(rt; line_at_fault(rt.alloc(), text)?, None, "{text:?}");
    }
    Ok(())
}

/// Reports with a line at fault, and the number of that line.
const AT_FAULT: [(u32, &[u8]); 11] = [
    (1, b""),
    (
        1,
        b"0 1 put 7 done 0 0 slow\ncalls 1 fast 0 slow 1 exhausted 0 pending 0 overtaken 0\n",
    ),
    (
        1,
        b"0 1 add 7 yes 0 1 fast\ncalls 1 fast 1 slow 0 exhausted 0 pending 0 overtaken 0\n",
    ),
    (2, b"0 1 put 7 done 0 1 fast\n"),
    (
        2,
        b"0 1 put 7 done 0 1 fast\ncalls 1 fast 1 slow 0 exhausted 0 pending 0 overtaken 0",
    ),
    (
        2,
        b"0 1 put 7 done 0 1 fast\ncalls 1 fast 0 slow 1 exhausted 0 pending 0 overtaken 0\n",
    ),
    (
        2,
        b"0 1 put 7 done 0 1 fast\ncalls 1 fast 1 slow 0 exhausted 0 pending 0 overtaken 57\n",
    ),
    (
        2,
        b"0 1 put 7 done 0 1 fast\ncalls 1 fast 1 slow 0 exhausted 0 pending 0 overtaken 00\n",
    ),
    (
        2,
        b"0 1 put 7 done 0 2 fast\ncalls 1 fast 1 slow 0 exhausted 0 pending 0 overtaken 0\n",
    ),
    (
        3,
        b"0 1 put 7 done 0 1 fast\ncalls 1 fast 1 slow 0 exhausted 0 pending 0 overtaken 0\n\n",
    ),
    (
        3,
        b"0 1 put 7 done 0 1 fast\ncalls 1 fast 1 slow 0 exhausted 0 pending 0 overtaken 0\n0 2 take empty 2 3 fast\n",
    ),
];

#[test]
fn the_first_line_at_fault_is_told(rt: HostRuntime) -> Result<(), Fail> {
    for (line, text) in AT_FAULT {
        assert_eq!(rt; line_at_fault(rt.alloc(), text)?, Some(line), "{text:?}");
    }
    Ok(())
}

/// What an order of a client's report is worth, where both are read.
fn verdict_on(
    alloc: Global,
    client: Client,
    report: &[u8],
    order: &[u8],
) -> Result<Option<Verdict>, NoMemory> {
    let Ok(report) = read_report(alloc, report, client) else {
        return Ok(None);
    };
    let Ok(names) = read_order(alloc, order) else {
        return Ok(None);
    };
    let verdict = judge(alloc, client, &report.receipts, &report.pending, &names)?;
    Ok(Some(verdict))
}

#[test]
fn orders_are_judged_by_the_texts(rt: HostRuntime) -> Result<(), Fail> {
    let whole =
        b"0 1 put 7 done 0 3 slow\n1 1 take value 7 1 2 slow\n1 2 take empty 4 5 slow\ncalls 3 fast 0 slow 3 exhausted 0 pending 0 overtaken 0\n".as_slice();
    let waiting =
        b"0 1 put 7 pending 0 - slow\n1 1 take value 7 1 2 slow\ncalls 2 fast 0 slow 2 exhausted 0 pending 1 overtaken 0\n".as_slice();
    for (report, order, place, reason) in [
        (whole, b"0 1\n1 1\n1 2\n".as_slice(), 0, None),
        (
            whole,
            b"1 2\n0 1\n1 1\n".as_slice(),
            2,
            Some(Reason::AgainstTicks),
        ),
        (waiting, b"1 1\n".as_slice(), 1, Some(Reason::AnotherReply)),
        (waiting, b"0 1\n1 1\n".as_slice(), 0, None),
        (whole, b"0 1\n1 1\n".as_slice(), 3, Some(Reason::LeftOut)),
    ] {
        let verdict = match reason {
            None => Verdict::Legal,
            Some(reason) => Verdict::NotLegal(Objection { place, reason }),
        };
        assert_eq!(rt;
            verdict_on(rt.alloc(), Client::Queue, report, order)?,
            Some(verdict),
            "{order:?}"
        );
    }
    Ok(())
}

#[test]
fn calls_that_only_look_are_judged(rt: HostRuntime) -> Result<(), Fail> {
    let first =
        b"0 1 put 7 done 0 1 fast\n0 2 peek value 7 2 3 fast\n0 3 take value 7 4 5 fast\ncalls 3 fast 3 slow 0 exhausted 0 pending 0\n".as_slice();
    let none =
        b"0 1 put 7 done 0 1 fast\n0 2 peek empty 2 3 fast\n0 3 take value 7 4 5 fast\ncalls 3 fast 3 slow 0 exhausted 0 pending 0\n".as_slice();
    let least =
        b"0 1 add 9 yes 0 1 fast\n0 2 add 4 yes 2 3 fast\n0 3 min value 4 4 5 fast\ncalls 3 fast 3 slow 0 exhausted 0 pending 0\n".as_slice();
    let greatest =
        b"0 1 add 9 yes 0 1 fast\n0 2 add 4 yes 2 3 fast\n0 3 min value 9 4 5 fast\ncalls 3 fast 3 slow 0 exhausted 0 pending 0\n".as_slice();
    for (client, report, place) in [
        (Client::Queue, first, 0),
        (Client::Queue, none, 2),
        (Client::List, least, 0),
        (Client::List, greatest, 3),
    ] {
        let wanted = match place {
            0 => Verdict::Legal,
            place => Verdict::NotLegal(Objection {
                place,
                reason: Reason::AnotherReply,
            }),
        };
        assert_eq!(rt;
            verdict_on(rt.alloc(), client, report, b"0 1\n0 2\n0 3\n".as_slice())?,
            Some(wanted),
            "{report:?}"
        );
    }
    assert_eq!(rt;
        verdict_on(rt.alloc(), Client::Buckets, least, b"0 1\n".as_slice())?,
        None
    );
    Ok(())
}
