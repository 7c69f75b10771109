//! Lines of sweeps.
use super::rows::{Row, compare, files_of, replayed};
use std::alloc::Global;
use std::test::Fail;
use whole_files::SinkInMemory;

const SWEEPS: [Row; 5] = [
    // A put stops, before its first step, in the midst, and behind its exchange. The take finds it once it is published.
    (
        "sweep queue 8 0 4 f0 f1",
        "",
        "put 7/|take/",
        0,
        "stop 0 calls 1 fast 0 slow 1 exhausted 0 pending 0 overtaken 0/stop 1 calls 2 fast 1 slow 1 exhausted 0 pending 1 overtaken 0/stop 2 calls 2 fast 1 slow 1 exhausted 0 pending 1 overtaken 0/stop 3 calls 2 fast 1 slow 1 exhausted 0 pending 1 overtaken 0/stop 4 calls 2 fast 1 slow 1 exhausted 0 pending 1 overtaken 0/",
    ),
    (
        "sweep queue 8 0 5 f0 f1",
        "",
        "put 7/|take/",
        0,
        "stop 0 calls 1 fast 0 slow 1 exhausted 0 pending 0 overtaken 0/stop 1 calls 2 fast 1 slow 1 exhausted 0 pending 1 overtaken 0/stop 2 calls 2 fast 1 slow 1 exhausted 0 pending 1 overtaken 0/stop 3 calls 2 fast 1 slow 1 exhausted 0 pending 1 overtaken 0/stop 4 calls 2 fast 1 slow 1 exhausted 0 pending 1 overtaken 0/stop 5 calls 2 fast 0 slow 2 exhausted 0 pending 1 overtaken 0/",
    ),
    // The only seat makes no step.
    (
        "sweep queue 8 3 0 f0",
        "",
        "take/",
        0,
        "stop 0 calls 0 fast 0 slow 0 exhausted 0 pending 0 overtaken 0/",
    ),
    // The other seat finds no block left.
    (
        "sweep queue 1 3 0 f0 f1",
        "",
        "take/|put 1/put 2/",
        7,
        "stop 0 calls 2 fast 2 slow 0 exhausted 1 pending 0 overtaken 0/",
    ),
    // The second command file is file 2.
    (
        "sweep queue 8 0 4 f0 f1",
        "",
        "take/|tak/",
        3,
        "nwf: refused file 2 line 1 cause 1/",
    ),
];

#[test]
fn lines_of_sweeps(rt: HostRuntime) -> Result<(), Fail> {
    compare(&rt, rt.alloc(), &SWEEPS)
}

/// Sweeps of three seats with four commands each, by structure and by contention limit.
const SEATS: [(&str, [&str; 3]); 8] = [
    (
        "sweep queue 64 0 100 f0 f1 f2",
        [
            "put 1/take/put 2/take/",
            "take/put 3/take/put 4/",
            "put 5/put 6/take/take/",
        ],
    ),
    (
        "sweep queue 64 3 100 f0 f1 f2",
        [
            "put 1/take/put 2/take/",
            "take/put 3/take/put 4/",
            "put 5/put 6/take/take/",
        ],
    ),
    (
        "sweep list 64 0 100 f0 f1 f2",
        [
            "add 1/del 2/add 3/del 1/",
            "add 2/del 1/has 3/del 3/",
            "del 3/add 1/del 2/add 2/",
        ],
    ),
    (
        "sweep list 64 3 100 f0 f1 f2",
        [
            "add 1/del 2/add 3/del 1/",
            "add 2/del 1/has 3/del 3/",
            "del 3/add 1/del 2/add 2/",
        ],
    ),
    (
        "sweep tree 64 0 100 f0 f1 f2",
        [
            "set 1 10/rem 2/set 3 30/rem 1/",
            "set 2 20/rem 1/get 3/rem 3/",
            "rem 3/set 1 11/rem 2/set 2 22/",
        ],
    ),
    (
        "sweep tree 64 3 100 f0 f1 f2",
        [
            "set 1 10/rem 2/set 3 30/rem 1/",
            "set 2 20/rem 1/get 3/rem 3/",
            "rem 3/set 1 11/rem 2/set 2 22/",
        ],
    ),
    (
        "sweep buckets 64 0 100 f0 f1 f2",
        [
            "add 1/del 33/add 65/del 1/",
            "add 33/del 1/has 65/del 65/",
            "del 65/add 1/del 33/add 33/",
        ],
    ),
    (
        "sweep buckets 64 3 100 f0 f1 f2",
        [
            "add 1/del 33/add 65/del 1/",
            "add 33/del 1/has 65/del 65/",
            "del 65/add 1/del 33/add 33/",
        ],
    ),
];

/// How many lines of a sweep have no pending call, or one.
fn calm_lines(alloc: Global, words: &str, files: [&str; 3]) -> Result<usize, Fail> {
    let mut commands = String::new(alloc);
    for file in files {
        commands.push_str(file)?;
        commands.push_str("|")?;
    }
    let mut files = files_of(alloc, "", commands.as_str(), &[], usize::MAX)?;
    let mut sink = SinkInMemory::in_pieces(alloc, 20_000, Vec::new(alloc), usize::MAX)?;
    replayed(alloc, words, &mut files, &mut sink)?;
    let calm = sink
        .bytes()
        .windows(11)
        .filter(|part| *part == b" pending 0 ".as_slice() || *part == b" pending 1 ".as_slice())
        .count();
    Ok(calm)
}

/// Each of the seats stops in turn, and only its own call stays: the others end all of theirs.
#[test]
fn a_stopped_seat_keeps_no_other_from_ending(rt: HostRuntime) -> Result<(), Fail> {
    for (words, [one, two, three]) in SEATS {
        for files in [[one, two, three], [two, three, one], [three, one, two]] {
            assert_eq!(rt; calm_lines(rt.alloc(), words, files)?, 101, "{words}");
        }
    }
    Ok(())
}
