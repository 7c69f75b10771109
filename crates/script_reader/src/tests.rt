//! Files as a reader of the formats would judge them by hand.

use super::*;
use lin_report::calls::{ADD, GET, MIN, PEEK, PUT, SET, TAKE};
use lin_report::{Client, Op};
use std::alloc::{AllocError, Global};
use std::test::Fail;

/// The line and the number of the cause, if a file was refused.
fn refusal<T: Drop>(read: Result<Vec<T>, ScriptFault>) -> Option<(u32, u32)> {
    match read {
        Err(ScriptFault::Refused(refusal)) => Some((refusal.line, cause_number(refusal.cause))),
        Err(ScriptFault::NoMemory) => Some((0, 0)),
        Ok(_) => None,
    }
}

/// A line so many times, and then the last lines.
fn repeated(alloc: Global, line: &[u8], times: usize, last: &[u8]) -> Result<Vec<u8>, AllocError> {
    let mut file = Vec::new(alloc);
    for _ in 0..times {
        file.extend_from_slice(line)?;
    }
    file.extend_from_slice(last)?;
    Ok(file)
}

const LONG: &[u8] = b"take                                                             ";

#[test]
fn command_files_are_refused(rt: HostRuntime) -> Result<(), Fail> {
    for (client, file, line, cause) in [
        (Client::List, b"add 1048576\n".as_slice(), 1, 2),
        (Client::List, b"add 1\n\nadd -1\n".as_slice(), 3, 2),
        (Client::Queue, b"put 7\nta".as_slice(), 2, 1),
        (Client::Queue, b"add 5\n".as_slice(), 1, 1),
        (Client::Queue, LONG, 1, 3),
        (Client::Queue, b"take 1\n".as_slice(), 1, 1),
        (Client::Queue, b"put\n".as_slice(), 1, 1),
        (Client::Queue, b"put 4294967296\n".as_slice(), 1, 2),
        (Client::Queue, b"put +7\n".as_slice(), 1, 2),
        (Client::Queue, b"\n \nput 1\t\n".as_slice(), 3, 2),
        (Client::Queue, b"put \xb5\n".as_slice(), 1, 2),
        (Client::Queue, b"\xff\n".as_slice(), 1, 1),
        (Client::Tree, b"set 1048576 1\n".as_slice(), 1, 2),
        (Client::Tree, b"set 1 2 3 4\n".as_slice(), 1, 1),
        (Client::Buckets, b"get 1\n".as_slice(), 1, 1),
        (Client::Queue, b"peek\npeek 1\n".as_slice(), 2, 1),
        (Client::Queue, b"peek\nmin\n".as_slice(), 2, 1),
        (Client::List, b"min\nmin 5\n".as_slice(), 2, 1),
        (Client::List, b"min\npeek\n".as_slice(), 2, 1),
        (Client::Buckets, b"add 1\nmin\n".as_slice(), 2, 1),
        (Client::Tree, b"min\n".as_slice(), 1, 1),
    ] {
        assert_eq!(rt;
            refusal(read_script(rt.alloc(), file, client)),
            Some((line, cause)),
            "{file:?}"
        );
    }
    let newlines = repeated(rt.alloc(), b"\n", 1_048_577, b"")?;
    assert_eq!(rt;
        refusal(read_script(rt.alloc(), &newlines, Client::Queue)),
        Some((0, 5))
    );
    let takes = repeated(rt.alloc(), b"take\n", 65_536, b"")?;
    assert_eq!(rt;
        refusal(read_script(rt.alloc(), &takes, Client::Queue)),
        Some((65_536, 4))
    );
    Ok(())
}

#[test]
fn schedules_are_refused(rt: HostRuntime) -> Result<(), Fail> {
    for (file, line, cause) in [
        (b"1 end\n".as_slice(), 1, 6),
        (b"0 0\n".as_slice(), 1, 2),
        (b"0 16385\n".as_slice(), 1, 2),
        (b"0 end end\n".as_slice(), 1, 1),
        (b"0\n".as_slice(), 1, 1),
        (b"x ends\n".as_slice(), 1, 1),
        (b"x end\n".as_slice(), 1, 2),
        (b"9 0\n".as_slice(), 1, 2),
        (b"0 end\n18446744073709551616 exchange".as_slice(), 2, 6),
    ] {
        assert_eq!(rt;
            refusal(read_schedule(rt.alloc(), file, 1)),
            Some((line, cause)),
            "{file:?}"
        );
    }
    Ok(())
}

/// A line that is refused for each cause, where there is one seat.
const FAULTY: [(&[u8], u32); 4] = [
    (b"0 stop\n", 1),
    (b"0 0\n", 2),
    (
        b"0 1                                                              \n",
        3,
    ),
    (b"1 end\n", 6),
];

#[test]
fn the_first_line_at_fault_decides(rt: HostRuntime) -> Result<(), Fail> {
    let entries = repeated(rt.alloc(), b"0 1\n", 4_096, b"")?;
    for (first, cause) in FAULTY {
        for (second, other) in FAULTY {
            let mut file = repeated(rt.alloc(), b"\n", 1, first)?;
            file.extend_from_slice(second)?;
            let answer = refusal(read_schedule(rt.alloc(), &file, 1));
            assert_eq!(rt; answer, Some((2, cause)), "{cause} before {other}");
        }
        let mut file = repeated(rt.alloc(), first, 1, &entries)?;
        file.extend_from_slice(b"0 1\n")?;
        let answer = refusal(read_schedule(rt.alloc(), &file, 1));
        assert_eq!(rt; answer, Some((1, cause)), "{cause} before too many");
        let mut file = repeated(rt.alloc(), &entries, 1, b"0 1\n")?;
        file.extend_from_slice(first)?;
        let answer = refusal(read_schedule(rt.alloc(), &file, 1));
        assert_eq!(rt; answer, Some((4_097, 4)), "too many before {cause}");
        let newlines = repeated(rt.alloc(), first, 1, b"")?;
        let file = repeated(rt.alloc(), b"\n", 1_048_576, &newlines)?;
        let answer = refusal(read_schedule(rt.alloc(), &file, 1));
        assert_eq!(rt; answer, Some((0, 5)), "a file too long before {cause}");
    }
    Ok(())
}

/// A command of the queue, the list or the tree.
const fn op(code: u8, key: u32, value: u32) -> Op {
    Op { code, key, value }
}

const PADDED_PUT: &[u8] = b"  put   0007 \n";

const GREATEST_PUT: &[u8] = b"put 4294967295\n";

const GREATEST_ADD: &[u8] = b"add 1048575\n";

#[test]
fn command_files_are_read(rt: HostRuntime) -> Result<(), Fail> {
    let take = op(TAKE, 0, 0);
    let put = op(PUT, 0, 7);
    let puts = [put, op(PUT, 0, 1)];
    let tree = [op(SET, 1, 9), op(GET, 1, 0)];
    for (client, file, ops) in [
        (Client::Queue, b"take\n".as_slice(), [take].as_slice()),
        (Client::Queue, b"".as_slice(), [].as_slice()),
        (Client::Queue, b"\n\n\n".as_slice(), [].as_slice()),
        (Client::Queue, &LONG[..64], [take].as_slice()),
        (Client::Queue, b"put 7\nput 1".as_slice(), puts.as_slice()),
        (Client::Queue, PADDED_PUT, [put].as_slice()),
        (
            Client::Queue,
            GREATEST_PUT,
            [op(PUT, 0, 4_294_967_295)].as_slice(),
        ),
        (
            Client::List,
            GREATEST_ADD,
            [op(ADD, 1_048_575, 0)].as_slice(),
        ),
        (
            Client::Tree,
            b"set 1 9\nget 1\n".as_slice(),
            tree.as_slice(),
        ),
    ] {
        match read_script(rt.alloc(), file, client) {
            Ok(read) => assert_eq!(rt; read.as_slice(), ops, "{file:?}"),
            Err(_) => assert!(rt; false, "{file:?}"),
        }
    }
    Ok(())
}

#[test]
fn commands_that_only_look_are_read(rt: HostRuntime) -> Result<(), Fail> {
    let looks = [op(PEEK, 0, 0), op(TAKE, 0, 0)];
    let least = [op(MIN, 0, 0)];
    for (client, file, ops) in [
        (Client::Queue, b" peek\ntake".as_slice(), looks.as_slice()),
        (Client::List, b"min \n".as_slice(), least.as_slice()),
    ] {
        match read_script(rt.alloc(), file, client) {
            Ok(read) => assert_eq!(rt; read.as_slice(), ops, "{file:?}"),
            Err(_) => assert!(rt; false, "{file:?}"),
        }
    }
    Ok(())
}

#[test]
fn schedules_are_read(rt: HostRuntime) -> Result<(), Fail> {
    let entries = [
        ScheduleEntry {
            seat: 0,
            span: Span::ToExchange,
        },
        ScheduleEntry {
            seat: 7,
            span: Span::ToEnd,
        },
        ScheduleEntry {
            seat: 1,
            span: Span::Steps(16_384),
        },
    ];
    match read_schedule(rt.alloc(), b"0 exchange\n\n7 end\n01 016384", 8) {
        Ok(read) => assert_eq!(rt; read.as_slice(), entries.as_slice()),
        Err(_) => assert!(rt; false),
    }
    match read_schedule(rt.alloc(), b"0 exchange\n", 1) {
        Ok(read) => assert_eq!(rt; read.as_slice(), &entries[..1]),
        Err(_) => assert!(rt; false),
    }
    Ok(())
}
