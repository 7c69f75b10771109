//! Reports of buckets, beside those of the list.
use super::rows::{Row, compare};
use bucket_set::BucketSet;
use client_reports::{judge_files, report_of};
use harris_list::HarrisList;
use lin_report::Client;
use std::alloc::Global;
use std::test::Fail;

/// Runs of the buckets.
const BUCKETS: [Row; 3] = [
    (
        "replay buckets 8 3 s f0",
        "0 end/0 end/0 end/0 end/0 end/",
        "add 0/add 1048575/has 0/del 0/del 0/",
        0,
        "0 1 add 0 yes 0 1 fast/0 2 add 1048575 yes 2 3 fast/0 3 has 0 yes 4 5 fast/0 4 del 0 yes 6 7 fast/0 5 del 0 no 8 9 fast/calls 5 fast 5 slow 0 exhausted 0 pending 0 overtaken 0/",
    ),
    // Two adds of two buckets don't contend.
    (
        "replay buckets 8 1 s f0 f1",
        "0 exchange/1 exchange/0 end/1 end/",
        "add 1/|add 2/",
        0,
        "0 1 add 1 yes 0 2 fast/1 1 add 2 yes 1 3 fast/calls 2 fast 2 slow 0 exhausted 0 pending 0 overtaken 0/",
    ),
    // A key and the one 32 above it have one bucket: the search for the second one passes the first.
    (
        "replay buckets 2 3 s f0",
        "0 end/0 end/0 end/0 6/",
        "add 5/add 37/add 6/has 37/",
        7,
        "0 1 add 5 yes 0 1 fast/0 2 add 37 yes 2 3 fast/0 3 add 6 exhausted 4 5 fast/0 4 has 37 pending 6 - fast/calls 4 fast 4 slow 0 exhausted 1 pending 1 overtaken 0/",
    ),
];

#[test]
fn reports_of_buckets(rt: HostRuntime) -> Result<(), Fail> {
    compare(&rt, rt.alloc(), &BUCKETS)
}

/// A schedule and four command files of sets.
type SetFiles = (&'static str, [&'static str; 4]);

const SETS: [SetFiles; 5] = [
    (
        "0 end\n0 end\n0 end\n0 end\n0 end\n",
        ["add 0\nadd 1048575\nhas 0\ndel 0\ndel 0\n", "", "", ""],
    ),
    (
        "0 3\n1 end\n0 end\n0 end\n",
        ["has 5\nhas 5\n", "add 5\n", "", ""],
    ),
    (
        "0 end\n0 exchange\n1 exchange\n0 end\n1 end\n",
        ["add 5\ndel 5\n", "del 5\n", "", ""],
    ),
    (
        "0 end\n0 end\n0 end\n0 exchange\n1 exchange\n2 exchange\n0 exchange\n1 exchange\n2 exchange\n3 end\n0 end\n1 end\n2 end\n",
        [
            "add 1\nadd 2\nadd 3\ndel 1\n",
            "del 2\n",
            "del 3\n",
            "has 3\n",
        ],
    ),
    (
        "0 end\n0 exchange\n0 exchange\n1 end\n0 end\n",
        ["add 5\ndel 5\n", "add 4\n", "", ""],
    ),
];

/// The reports of the list and of one bucket.
fn both_reports(alloc: Global, files: &SetFiles) -> Option<(Vec<u8>, Vec<u8>)> {
    let (schedule, [first, second, third, fourth]) = files;
    let bytes = [
        first.as_bytes(),
        second.as_bytes(),
        third.as_bytes(),
        fourth.as_bytes(),
    ];
    let of_list = judge_files(alloc, Client::List, schedule.as_bytes(), &bytes).ok()?;
    let of_bucket = judge_files(alloc, Client::Buckets, schedule.as_bytes(), &bytes).ok()?;
    let list = report_of::<HarrisList>(alloc, 8, 3, of_list).ok()?;
    let bucket = report_of::<BucketSet<1>>(alloc, 8, 3, of_bucket).ok()?;
    Some((list.text, bucket.text))
}

#[test]
fn one_bucket_gives_the_reports_of_the_list(rt: HostRuntime) {
    for files in &SETS {
        let Some((list, bucket)) = both_reports(rt.alloc(), files) else {
            panic!(rt; "no memory")
        };
        assert!(rt; !list.is_empty());
        assert_eq!(rt; list.as_slice(), bucket.as_slice());
    }
}
