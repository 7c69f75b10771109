//! Reports of queues.
use super::rows::{ONE, Row, TWO, compare};
use std::test::Fail;

/// Runs of one seat: their reports, and after how many steps a call is answered.
const ONE_SEAT: [Row; 7] = [
    (
        ONE,
        "0 end/0 end/",
        "put 7/take/",
        0,
        "0 1 put 7 done 0 1 fast/0 2 take value 7 2 3 fast/calls 2 fast 2 slow 0 exhausted 0 pending 0 overtaken 0/",
    ),
    (
        ONE,
        "",
        "",
        0,
        "calls 0 fast 0 slow 0 exhausted 0 pending 0 overtaken 0/",
    ),
    (
        ONE,
        "0 end/",
        "take/",
        0,
        "0 1 take empty 0 1 fast/calls 1 fast 1 slow 0 exhausted 0 pending 0 overtaken 0/",
    ),
    (
        "replay queue 1 3 s f0",
        "0 end/0 end/0 end/",
        "put 1/put 2/take/",
        7,
        "0 1 put 1 done 0 1 fast/0 2 put 2 exhausted 2 3 fast/0 3 take value 1 4 5 fast/calls 3 fast 3 slow 0 exhausted 1 pending 0 overtaken 0/",
    ),
    (
        ONE,
        "0 14/",
        "put 7/take/",
        0,
        "0 1 put 7 pending 0 - fast/calls 1 fast 1 slow 0 exhausted 0 pending 1 overtaken 0/",
    ),
    (
        ONE,
        "0 15/",
        "put 7/take/",
        0,
        "0 1 put 7 done 0 1 fast/calls 1 fast 1 slow 0 exhausted 0 pending 0 overtaken 0/",
    ),
    (
        ONE,
        "0 23/",
        "put 7/take/",
        0,
        "0 1 put 7 done 0 1 fast/0 2 take value 7 2 3 fast/calls 2 fast 2 slow 0 exhausted 0 pending 0 overtaken 0/",
    ),
];

#[test]
fn reports_of_one_seat(rt: HostRuntime) -> Result<(), Fail> {
    compare(&rt, rt.alloc(), &ONE_SEAT)
}

/// Files as the grammar lets them be.
const GRAMMAR: [Row; 5] = [
    (
        ONE,
        "0 end/0 end/",
        "put 7/put 1",
        0,
        "0 1 put 7 done 0 1 fast/0 2 put 1 done 2 3 fast/calls 2 fast 2 slow 0 exhausted 0 pending 0 overtaken 0/",
    ),
    (
        ONE,
        "0 end/0 end/",
        "take                                                            /put 0007/",
        0,
        "0 1 take empty 0 1 fast/0 2 put 7 done 2 3 fast/calls 2 fast 2 slow 0 exhausted 0 pending 0 overtaken 0/",
    ),
    (
        "replay queue 008 03 s f0",
        " 0   end /00 end/0 end",
        "put 4294967295//put 0001/take",
        0,
        "0 1 put 4294967295 done 0 1 fast/0 2 put 1 done 2 3 fast/0 3 take value 4294967295 4 5 fast/calls 3 fast 3 slow 0 exhausted 0 pending 0 overtaken 0/",
    ),
    // The schedule is empty, or longer than the run.
    (
        TWO,
        "",
        "put 7/|take/",
        0,
        "calls 0 fast 0 slow 0 exhausted 0 pending 0 overtaken 0/",
    ),
    (
        ONE,
        "0 end/0 end/0 16384/0 exchange/0 end",
        "take/",
        0,
        "0 1 take empty 0 1 fast/calls 1 fast 1 slow 0 exhausted 0 pending 0 overtaken 0/",
    ),
];

#[test]
fn grammar_of_the_files(rt: HostRuntime) -> Result<(), Fail> {
    compare(&rt, rt.alloc(), &GRAMMAR)
}

/// Runs of two seats and of eight.
const MORE_SEATS: [Row; 6] = [
    (
        TWO,
        "0 exchange/1 end/",
        "put 7/|take/",
        0,
        "0 1 put 7 pending 0 - fast/1 1 take empty 1 2 fast/calls 2 fast 2 slow 0 exhausted 0 pending 1 overtaken 0/",
    ),
    (
        TWO,
        "0 exchange/0 1/1 end/0 end/",
        "put 7/|take/",
        0,
        "0 1 put 7 done 0 3 fast/1 1 take value 7 1 2 fast/calls 2 fast 2 slow 0 exhausted 0 pending 0 overtaken 0/",
    ),
    (
        "replay queue 2 3 s f0 f1",
        "0 exchange/1 exchange/0 end/1 end/1 end/",
        "put 7/|put 8/take/",
        0,
        "0 1 put 7 done 0 2 fast/1 1 put 8 done 1 3 fast/1 2 take value 7 4 5 fast/calls 3 fast 3 slow 0 exhausted 0 pending 0 overtaken 0/",
    ),
    (
        "replay queue 1 3 s f0 f1",
        "1 end/0 end/1 1/",
        "put 7/|put 8/take/",
        7,
        "1 1 put 8 done 0 1 fast/0 1 put 7 exhausted 2 3 fast/1 2 take pending 4 - fast/calls 3 fast 3 slow 0 exhausted 1 pending 1 overtaken 0/",
    ),
    (
        "replay queue 65536 255 s f0 f0",
        "1 end/0 end/",
        "put 7/",
        0,
        "1 1 put 7 done 0 1 fast/0 1 put 7 done 2 3 fast/calls 2 fast 2 slow 0 exhausted 0 pending 0 overtaken 0/",
    ),
    (
        "replay queue 8 1 s f0 f1 f2 f3 f4 f5 f6 f7",
        "7 end/0 end/7 1/",
        "take/|||||||put 3/take/",
        0,
        "7 1 put 3 done 0 1 fast/0 1 take value 3 2 3 fast/7 2 take pending 4 - fast/calls 3 fast 3 slow 0 exhausted 0 pending 1 overtaken 0/",
    ),
];

#[test]
fn reports_of_more_seats(rt: HostRuntime) -> Result<(), Fail> {
    compare(&rt, rt.alloc(), &MORE_SEATS)
}
