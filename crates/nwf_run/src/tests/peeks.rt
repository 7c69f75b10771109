//! Reports of queues whose first value is looked at.
use super::rows::{AMPLE, ONE, Row, TWO, bytes_of, compare, files_of};
use super::runs::ran;
use std::test::Fail;
use thread_runs::NoGate;
use whole_files::SinkInMemory;

/// Looks before, between and after.
const LOOKS: &str = "peek/put 4294967295/peek/take/peek/";

const PEEKS: [Row; 8] = [
    (
        ONE,
        "0 end/0 end/0 end/0 end/0 end/",
        LOOKS,
        0,
        "0 1 peek empty 0 1 fast/0 2 put 4294967295 done 2 3 fast/0 3 peek value 4294967295 4 5 fast/0 4 take value 4294967295 6 7 fast/0 5 peek empty 8 9 fast/calls 5 fast 5 slow 0 exhausted 0 pending 0 overtaken 0/",
    ),
    (
        "replay queue 8 0 s f0",
        "0 end/0 end/0 end/0 end/0 end/",
        LOOKS,
        0,
        "0 1 peek empty 0 1 slow/0 2 put 4294967295 done 2 3 slow/0 3 peek value 4294967295 4 5 slow/0 4 take value 4294967295 6 7 slow/0 5 peek empty 8 9 slow/calls 5 fast 0 slow 5 exhausted 0 pending 0 overtaken 0/",
    ),
    // A node is linked, and the tail isn't moved yet.
    (
        TWO,
        "0 exchange/0 1/1 end/0 end/",
        "put 7/|peek/",
        0,
        "0 1 put 7 done 0 3 fast/1 1 peek value 7 1 2 fast/calls 2 fast 2 slow 0 exhausted 0 pending 0 overtaken 0/",
    ),
    // The head is loaded, then its value is taken.
    (
        TWO,
        "0 end/0 end/1 3/0 end/1 end/",
        "put 7/put 8/take/|peek/",
        0,
        "0 1 put 7 done 0 1 fast/0 2 put 8 done 2 3 fast/1 1 peek value 7 4 7 fast/0 3 take value 7 5 6 fast/calls 4 fast 4 slow 0 exhausted 0 pending 0 overtaken 0/",
    ),
    // The head of an empty queue is loaded, then values come and the first goes.
    (
        TWO,
        "1 3/0 end/0 end/0 end/1 end/",
        "put 7/put 8/take/|peek/",
        0,
        "1 1 peek value 7 0 7 fast/0 1 put 7 done 1 2 fast/0 2 put 8 done 3 4 fast/0 3 take value 7 5 6 fast/calls 4 fast 4 slow 0 exhausted 0 pending 0 overtaken 0/",
    ),
    // It needs no block, its own seat's or a helper's.
    (
        "replay queue 1 0 s f0",
        "0 end/0 end/0 end/0 end/",
        "put 7/peek/take/peek/",
        7,
        "0 1 put 7 done 0 1 slow/0 2 peek value 7 2 3 slow/0 3 take exhausted 4 5 slow/0 4 peek value 7 6 7 slow/calls 4 fast 0 slow 4 exhausted 1 pending 0 overtaken 0/",
    ),
    // Another seat finishes it, before that seat takes the value.
    (
        "replay queue 8 0 s f0 f1",
        "1 end/0 5/1 5/1 end/1 end/0 end/",
        "peek/|put 7/put 8/take/",
        0,
        "1 1 put 7 done 0 1 slow/0 1 peek value 7 2 7 slow/1 2 put 8 done 3 4 slow/1 3 take value 7 5 6 slow/calls 4 fast 0 slow 4 exhausted 0 pending 0 overtaken 0/",
    ),
    // A list has no first value to be looked at.
    (
        "replay list 8 3 s f0",
        "0 end/",
        "peek/",
        3,
        "nwf: refused file 1 line 1 cause 1/",
    ),
];

#[test]
fn reports_of_peeks(rt: HostRuntime) -> Result<(), Fail> {
    compare(&rt, rt.alloc(), &PEEKS)
}

#[test]
fn peeks_of_a_thread(rt: HostRuntime) -> Result<(), Fail> {
    let alloc = rt.alloc();
    for (words, text) in [
        (
            "run queue 8 3 f0",
            "0 1 peek empty 0 1 fast/0 2 put 4294967295 done 2 3 fast/0 3 peek value 4294967295 4 5 fast/0 4 take value 4294967295 6 7 fast/0 5 peek empty 8 9 fast/calls 5 fast 5 slow 0 exhausted 0 pending 0/",
        ),
        (
            "run queue 8 0 f0",
            "0 1 peek empty 0 1 slow/0 2 put 4294967295 done 2 3 slow/0 3 peek value 4294967295 4 5 slow/0 4 take value 4294967295 6 7 slow/0 5 peek empty 8 9 slow/calls 5 fast 0 slow 5 exhausted 0 pending 0/",
        ),
    ] {
        let wanted = bytes_of(alloc, text)?;
        let mut files = files_of(alloc, "", LOOKS, &[], AMPLE)?;
        let mut sink = SinkInMemory::with_room(alloc, AMPLE, Vec::new(alloc))?;
        let got = ran(&rt, alloc, words, &mut files, &mut sink, &NoGate)?;
        assert_eq!(rt; sink.bytes(), wanted.as_slice(), "{words}");
        assert_eq!(rt; got, 0, "{words}");
    }
    Ok(())
}
