//! Reports of trees and of buckets.
use super::rows::{Row, compare};
use std::test::Fail;

const ONE_TREE: &str = "replay tree 8 3 s f0";

const TWO_TREE: &str = "replay tree 8 3 s f0 f1";

/// Runs of the tree.
const TREES: [Row; 8] = [
    (
        ONE_TREE,
        "0 end/0 end/0 end/0 end/",
        "get 5/set 5 70/set 5 71/get 5/",
        0,
        "0 1 get 5 absent 0 1 fast/0 2 set 5 70 yes 2 3 fast/0 3 set 5 71 no 4 5 fast/0 4 get 5 value 70 6 7 fast/calls 4 fast 4 slow 0 exhausted 0 pending 0 overtaken 0/",
    ),
    (
        ONE_TREE,
        "0 end/0 end/0 end/0 end/",
        "set 5 4294967295/rem 5/rem 5/get 5/",
        0,
        "0 1 set 5 4294967295 yes 0 1 fast/0 2 rem 5 yes 2 3 fast/0 3 rem 5 no 4 5 fast/0 4 get 5 absent 6 7 fast/calls 4 fast 4 slow 0 exhausted 0 pending 0 overtaken 0/",
    ),
    // Another seat finishes an insertion that is only flagged.
    (
        TWO_TREE,
        "0 exchange/0 1/1 end/1 end/0 end/",
        "set 5 70/|set 9 1/get 5/",
        0,
        "0 1 set 5 70 yes 0 5 fast/1 1 set 9 1 yes 1 2 fast/1 2 get 5 value 70 3 4 fast/calls 3 fast 3 slow 0 exhausted 0 pending 0 overtaken 0/",
    ),
    // The parent changes before its mark: the removal backs out and tries again.
    (
        TWO_TREE,
        "0 end/0 end/0 exchange/0 1/1 end/0 end/",
        "set 5 50/set 9 90/rem 5/|set 7 70/",
        0,
        "0 1 set 5 50 yes 0 1 fast/0 2 set 9 90 yes 2 3 fast/0 3 rem 5 yes 4 7 fast/1 1 set 7 70 yes 5 6 fast/calls 4 fast 4 slow 0 exhausted 0 pending 0 overtaken 0/",
    ),
    // And it removes in the end.
    (
        TWO_TREE,
        "0 end/0 end/0 exchange/0 1/1 end/0 end/0 end/",
        "set 5 50/set 9 90/rem 5/get 5/|set 7 70/",
        0,
        "0 1 set 5 50 yes 0 1 fast/0 2 set 9 90 yes 2 3 fast/0 3 rem 5 yes 4 7 fast/1 1 set 7 70 yes 5 6 fast/0 4 get 5 absent 8 9 fast/calls 5 fast 5 slow 0 exhausted 0 pending 0 overtaken 0/",
    ),
    // Two removals of one key.
    (
        TWO_TREE,
        "0 end/0 exchange/1 exchange/0 end/1 end/",
        "set 5 50/rem 5/|rem 5/",
        0,
        "0 1 set 5 50 yes 0 1 fast/0 2 rem 5 yes 2 4 fast/1 1 rem 5 no 3 5 fast/calls 3 fast 3 slow 0 exhausted 0 pending 0 overtaken 0/",
    ),
    // A removal takes a block too. A call that makes no change takes none.
    (
        "replay tree 2 3 s f0",
        "0 end/0 end/0 end/0 end/0 end/0 end/",
        "set 0 1/rem 0/set 0 2/rem 0/get 0/set 7 7/",
        7,
        "0 1 set 0 1 yes 0 1 fast/0 2 rem 0 yes 2 3 fast/0 3 set 0 2 exhausted 4 5 fast/0 4 rem 0 no 6 7 fast/0 5 get 0 absent 8 9 fast/0 6 set 7 7 exhausted 10 11 fast/calls 6 fast 6 slow 0 exhausted 2 pending 0 overtaken 0/",
    ),
    (
        "replay tree 1 3 s f0",
        "0 end/0 end/0 end/",
        "set 1048575 9/rem 1048575/get 1048575/",
        7,
        "0 1 set 1048575 9 yes 0 1 fast/0 2 rem 1048575 exhausted 2 3 fast/0 3 get 1048575 value 9 4 5 fast/calls 3 fast 3 slow 0 exhausted 1 pending 0 overtaken 0/",
    ),
];

#[test]
fn reports_of_trees(rt: HostRuntime) -> Result<(), Fail> {
    compare(&rt, rt.alloc(), &TREES)
}
