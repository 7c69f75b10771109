//! Reports of lists.
use super::rows::{ONE_LIST, Row, TWO_LIST, compare};
use std::test::Fail;

/// Runs of the list.
const LISTS: [Row; 10] = [
    // A search of two nodes takes two steps a node, behind the load of the beginning: a call of it takes 8.
    (
        ONE_LIST,
        "0 end/0 end/0 7/",
        "add 1/add 2/has 3/",
        0,
        "0 1 add 1 yes 0 1 fast/0 2 add 2 yes 2 3 fast/0 3 has 3 pending 4 - fast/calls 3 fast 3 slow 0 exhausted 0 pending 1 overtaken 0/",
    ),
    (
        ONE_LIST,
        "0 end/0 end/0 8/",
        "add 1/add 2/has 3/",
        0,
        "0 1 add 1 yes 0 1 fast/0 2 add 2 yes 2 3 fast/0 3 has 3 no 4 5 fast/calls 3 fast 3 slow 0 exhausted 0 pending 0 overtaken 0/",
    ),
    (
        ONE_LIST,
        "0 end/0 end/0 end/0 end/0 end/",
        "add 0/add 1048575/has 0/del 0/del 0/",
        0,
        "0 1 add 0 yes 0 1 fast/0 2 add 1048575 yes 2 3 fast/0 3 has 0 yes 4 5 fast/0 4 del 0 yes 6 7 fast/0 5 del 0 no 8 9 fast/calls 5 fast 5 slow 0 exhausted 0 pending 0 overtaken 0/",
    ),
    (
        TWO_LIST,
        "0 3/1 end/0 end/0 end/",
        "has 5/has 5/|add 5/",
        0,
        "0 1 has 5 no 0 3 fast/1 1 add 5 yes 1 2 fast/0 2 has 5 yes 4 5 fast/calls 3 fast 3 slow 0 exhausted 0 pending 0 overtaken 0/",
    ),
    (
        TWO_LIST,
        "0 end/0 exchange/1 exchange/0 end/1 end/",
        "add 5/del 5/|del 5/",
        0,
        "0 1 add 5 yes 0 1 fast/0 2 del 5 yes 2 4 fast/1 1 del 5 no 3 5 fast/calls 3 fast 3 slow 0 exhausted 0 pending 0 overtaken 0/",
    ),
    // Three marked nodes are unlinked by one exchange.
    (
        "replay list 8 3 s f0 f1 f2 f3",
        "0 end/0 end/0 end/0 exchange/1 exchange/2 exchange/0 exchange/1 exchange/2 exchange/3 end/0 end/1 end/2 end/",
        "add 1/add 2/add 3/del 1/|del 2/|del 3/|has 3/",
        0,
        "0 1 add 1 yes 0 1 fast/0 2 add 2 yes 2 3 fast/0 3 add 3 yes 4 5 fast/0 4 del 1 yes 6 11 fast/1 1 del 2 yes 7 12 fast/2 1 del 3 yes 8 13 fast/3 1 has 3 no 9 10 fast/calls 7 fast 7 slow 0 exhausted 0 pending 0 overtaken 0/",
    ),
    // The mark has won while another seat unlinks.
    (
        TWO_LIST,
        "0 end/0 exchange/0 exchange/1 end/0 end/",
        "add 5/del 5/|add 4/",
        0,
        "0 1 add 5 yes 0 1 fast/0 2 del 5 yes 2 5 fast/1 1 add 4 yes 3 4 fast/calls 3 fast 3 slow 0 exhausted 0 pending 0 overtaken 0/",
    ),
    // Two adds after one node: the second one searches again, with its block in hand.
    (
        "replay list 3 3 s f0 f1",
        "0 end/0 exchange/1 exchange/0 end/1 end/",
        "add 1/add 3/|add 2/",
        0,
        "0 1 add 1 yes 0 1 fast/0 2 add 3 yes 2 4 fast/1 1 add 2 yes 3 5 fast/calls 3 fast 3 slow 0 exhausted 0 pending 0 overtaken 0/",
    ),
    // The left neighbour of a node that is deleted is being deleted too.
    (
        "replay list 8 3 s f0 f1 f2",
        "0 end/0 end/0 exchange/1 exchange/0 1/1 end/0 end/2 end/",
        "add 1/add 2/del 1/|del 2/|has 2/",
        0,
        "0 1 add 1 yes 0 1 fast/0 2 add 2 yes 2 3 fast/0 3 del 1 yes 4 7 fast/1 1 del 2 yes 5 6 fast/2 1 has 2 no 8 9 fast/calls 5 fast 5 slow 0 exhausted 0 pending 0 overtaken 0/",
    ),
    (
        "replay list 1 3 s f0",
        "0 end/0 end/0 end/",
        "add 1/add 2/del 1/",
        7,
        "0 1 add 1 yes 0 1 fast/0 2 add 2 exhausted 2 3 fast/0 3 del 1 yes 4 5 fast/calls 3 fast 3 slow 0 exhausted 1 pending 0 overtaken 0/",
    ),
];

#[test]
fn reports_of_lists(rt: HostRuntime) -> Result<(), Fail> {
    compare(&rt, rt.alloc(), &LISTS)
}
