//! Reports of the least key of a list.
use super::rows::{ONE_LIST, Row, TWO_LIST, compare};
use std::test::Fail;

/// Runs with `min`.
const MINS: [Row; 8] = [
    // A min that has seen the node of 5 tells it, though 3 is added before its answer.
    (
        TWO_LIST,
        "0 end/1 3/0 end/1 end/1 end/",
        "add 5/add 3/|min/min/",
        0,
        "0 1 add 5 yes 0 1 fast/1 1 min value 5 2 5 fast/0 2 add 3 yes 3 4 fast/1 2 min value 3 6 7 fast/calls 4 fast 4 slow 0 exhausted 0 pending 0 overtaken 0/",
    ),
    // On the slow path three steps are not yet the announcement, so it sees 3.
    (
        "replay list 8 0 s f0 f1",
        "0 end/1 3/0 end/1 end/1 end/",
        "add 5/add 3/|min/min/",
        0,
        "0 1 add 5 yes 0 1 slow/1 1 min value 3 2 5 slow/0 2 add 3 yes 3 4 slow/1 2 min value 3 6 7 slow/calls 4 fast 0 slow 4 exhausted 0 pending 0 overtaken 0/",
    ),
    (
        ONE_LIST,
        "0 end/0 end/0 end/0 end/0 end/0 end/",
        "min/add 1048575/min/add 0/min/del 0/",
        0,
        "0 1 min empty 0 1 fast/0 2 add 1048575 yes 2 3 fast/0 3 min value 1048575 4 5 fast/0 4 add 0 yes 6 7 fast/0 5 min value 0 8 9 fast/0 6 del 0 yes 10 11 fast/calls 6 fast 6 slow 0 exhausted 0 pending 0 overtaken 0/",
    ),
    // The greatest key comes through a record.
    (
        "replay list 8 0 s f0",
        "0 end/0 end/0 end/0 end/0 end/0 end/",
        "min/add 1048575/min/add 0/min/del 0/",
        0,
        "0 1 min empty 0 1 slow/0 2 add 1048575 yes 2 3 slow/0 3 min value 1048575 4 5 slow/0 4 add 0 yes 6 7 slow/0 5 min value 0 8 9 slow/0 6 del 0 yes 10 11 slow/calls 6 fast 0 slow 6 exhausted 0 pending 0 overtaken 0/",
    ),
    // The node of 5 is about to be marked.
    (
        TWO_LIST,
        "0 end/0 end/0 exchange/1 end/0 end/",
        "add 5/add 8/del 5/|min/",
        0,
        "0 1 add 5 yes 0 1 fast/0 2 add 8 yes 2 3 fast/0 3 del 5 yes 4 7 fast/1 1 min value 5 5 6 fast/calls 4 fast 4 slow 0 exhausted 0 pending 0 overtaken 0/",
    ),
    // It is marked and still leads to that of 8.
    (
        TWO_LIST,
        "0 end/0 end/0 exchange/0 exchange/1 end/0 end/",
        "add 5/add 8/del 5/|min/",
        0,
        "0 1 add 5 yes 0 1 fast/0 2 add 8 yes 2 3 fast/0 3 del 5 yes 4 7 fast/1 1 min value 8 5 6 fast/calls 4 fast 4 slow 0 exhausted 0 pending 0 overtaken 0/",
    ),
    // Behind it there is nothing.
    (
        TWO_LIST,
        "0 end/0 exchange/0 exchange/1 end/0 end/",
        "add 5/del 5/|min/",
        0,
        "0 1 add 5 yes 0 1 fast/0 2 del 5 yes 2 5 fast/1 1 min empty 3 4 fast/calls 3 fast 3 slow 0 exhausted 0 pending 0 overtaken 0/",
    ),
    // A call that is answered `exhausted` leaves the least key, and a min needs no block.
    (
        "replay list 1 3 s f0",
        "0 end/0 end/0 end/",
        "add 2/add 1/min/",
        7,
        "0 1 add 2 yes 0 1 fast/0 2 add 1 exhausted 2 3 fast/0 3 min value 2 4 5 fast/calls 3 fast 3 slow 0 exhausted 1 pending 0 overtaken 0/",
    ),
];

#[test]
fn reports_of_least_keys(rt: HostRuntime) -> Result<(), Fail> {
    compare(&rt, rt.alloc(), &MINS)
}
