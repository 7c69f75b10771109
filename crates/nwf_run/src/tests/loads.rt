//! Summaries of loads.
use super::rows::{AMPLE, Row, compare, files_of, replayed};
use std::alloc::Global;
use std::test::Fail;
use whole_files::SinkInMemory;

/// Loads of one seat, whose calls come one after the other: the first one that finds no block left is answered so, and
/// so is each later one that wants a block.
const ONE_SEAT: [Row; 9] = [
    (
        "load list 65536 3 1 100 7",
        "",
        "",
        0,
        "calls 100 fast 100 slow 0 exhausted 0 pending 0 overtaken 0/",
    ),
    (
        "load queue 65536 255 01 00100 0",
        "",
        "",
        0,
        "calls 100 fast 100 slow 0 exhausted 0 pending 0 overtaken 0/",
    ),
    (
        "load queue 1 3 1 20 7",
        "",
        "",
        7,
        "calls 20 fast 20 slow 0 exhausted 13 pending 0 overtaken 0/",
    ),
    (
        "load list 1 3 1 100 7",
        "",
        "",
        7,
        "calls 100 fast 100 slow 0 exhausted 29 pending 0 overtaken 0/",
    ),
    (
        "load list 2 3 1 100 7",
        "",
        "",
        7,
        "calls 100 fast 100 slow 0 exhausted 27 pending 0 overtaken 0/",
    ),
    (
        "load buckets 2 3 1 100 7",
        "",
        "",
        7,
        "calls 100 fast 100 slow 0 exhausted 27 pending 0 overtaken 0/",
    ),
    (
        "load tree 65536 3 1 100 7",
        "",
        "",
        0,
        "calls 100 fast 100 slow 0 exhausted 0 pending 0 overtaken 0/",
    ),
    (
        "load tree 3 3 1 100 7",
        "",
        "",
        7,
        "calls 100 fast 100 slow 0 exhausted 26 pending 0 overtaken 0/",
    ),
    (
        "load queue 3 1 1 10 4294967295",
        "",
        "",
        7,
        "calls 10 fast 10 slow 0 exhausted 2 pending 0 overtaken 0/",
    ),
];

#[test]
fn loads_of_one_seat(rt: HostRuntime) -> Result<(), Fail> {
    compare(&rt, rt.alloc(), &ONE_SEAT)
}

/// The status of a load over files of which each call fails, how many calls of them were made, and the sink.
fn loaded(alloc: Global, words: &str, room: usize) -> Result<(u8, u64, SinkInMemory), Fail> {
    let mut files = files_of(alloc, "", "", &[0, 1, 2], AMPLE)?;
    let mut sink = SinkInMemory::with_room(alloc, room, Vec::new(alloc))?;
    let status = replayed(alloc, words, &mut files, &mut sink)?;
    Ok((status, files.calls(), sink))
}

/// The numbers of a summary: calls, fast, slow, exhausted, pending, overtaken.
fn numbers_of(summary: &[u8]) -> [u32; 6] {
    let mut numbers: [u32; 6] = [0; 6];
    let mut at: usize = 0;
    let mut in_number = false;
    for byte in summary {
        let is_digit = byte.is_ascii_digit();
        if in_number && !is_digit {
            at = at.wrapping_add(1);
        }
        in_number = is_digit;
        if is_digit && let Some(number) = numbers.get_mut(at) {
            *number = number
                .wrapping_mul(10)
                .wrapping_add(u32::from(byte.wrapping_sub(b'0')));
        }
    }
    numbers
}

/// How often a call of one of eight seats is overtaken at most.
const MOST_OF_EIGHT: u32 = 35;

#[test]
fn eight_seats_take_turns(rt: HostRuntime) -> Result<(), Fail> {
    let alloc = rt.alloc();
    for (words, made) in [
        ("load list 65536 3 8 2000 42", 16_000),
        ("load list 65536 255 8 500 42", 4000),
        ("load queue 65536 0 8 500 42", 4000),
        ("load tree 65536 3 8 500 42", 4000),
        ("load buckets 65536 3 8 500 42", 4000),
    ] {
        let (status, calls, first) = loaded(alloc, words, AMPLE)?;
        let (_, _, second) = loaded(alloc, words, AMPLE)?;
        assert_eq!(rt; status, 0, "{words}");
        assert_eq!(rt; calls, 0, "{words}");
        let [all, fast, slow, exhausted, pending, overtaken] = numbers_of(first.bytes());
        assert_eq!(rt; (all, exhausted, pending), (made, 0, 0), "{words}");
        assert_eq!(rt; fast.wrapping_add(slow), made, "{words}");
        assert!(rt; overtaken <= MOST_OF_EIGHT, "{words}");
        assert!(rt; slow > 0 || overtaken == 0, "{words}");
        assert_eq!(rt; first.bytes(), second.bytes(), "{words}");
    }
    Ok(())
}

#[test]
fn a_summary_that_is_cut(rt: HostRuntime) -> Result<(), Fail> {
    let (status, _, sink) = loaded(rt.alloc(), "load queue 8 3 2 1 0", 10)?;
    assert_eq!(rt; status, 5);
    assert_eq!(rt; sink.bytes(), b"calls 2 fa".as_slice());
    Ok(())
}
