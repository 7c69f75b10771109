//! Reports of calls that are published and helped.
use super::rows::{AMPLE, Row, bytes_of, compare, files_of};
use super::runs::ran;
use std::test::Fail;
use thread_runs::NoGate;
use whole_files::SinkInMemory;

/// Replays and a load whose limit sends calls to the slow path.
const SLOW: [Row; 14] = [
    // One seat on the slow path.
    (
        "replay list 8 0 s f0",
        "0 end/0 end/0 end/",
        "add 1/has 1/has 2/",
        0,
        "0 1 add 1 yes 0 1 slow/0 2 has 1 yes 2 3 slow/0 3 has 2 no 4 5 slow/calls 3 fast 0 slow 3 exhausted 0 pending 0 overtaken 0/",
    ),
    // A taker completes a put that stopped before its exchange.
    (
        "replay queue 8 0 s f0 f1",
        "0 exchange/1 end/0 end/",
        "put 7/|take/",
        0,
        "0 1 put 7 done 0 3 slow/1 1 take value 7 1 2 slow/calls 2 fast 0 slow 2 exhausted 0 pending 0 overtaken 0/",
    ),
    // The late exchange of a list is lost, and the value comes out once.
    (
        "replay queue 8 0 s f0 f1",
        "0 exchange/1 end/0 end/1 end/",
        "put 7/|take/take/",
        0,
        "0 1 put 7 done 0 3 slow/1 1 take value 7 1 2 slow/1 2 take empty 4 5 slow/calls 3 fast 0 slow 3 exhausted 0 pending 0 overtaken 0/",
    ),
    // A helper makes the second exchange of a list.
    (
        "replay list 8 0 s f0 f1",
        "0 end/0 exchange/0 exchange/1 end/0 end/",
        "add 5/del 5/|has 5/",
        0,
        "0 1 add 5 yes 0 1 slow/0 2 del 5 yes 2 5 slow/1 1 has 5 no 3 4 slow/calls 3 fast 0 slow 3 exhausted 0 pending 0 overtaken 0/",
    ),
    // A helper decides an entry that was exchanged.
    (
        "replay queue 8 0 s f0 f1",
        "0 exchange/0 1/1 end/0 end/",
        "put 7/|take/",
        0,
        "0 1 put 7 done 0 3 slow/1 1 take value 7 1 2 slow/calls 2 fast 0 slow 2 exhausted 0 pending 0 overtaken 0/",
    ),
    // The greatest value comes through.
    (
        "replay queue 8 0 s f0 f1",
        "0 exchange/1 end/0 end/",
        "put 4294967295/|take/",
        0,
        "0 1 put 4294967295 done 0 3 slow/1 1 take value 4294967295 1 2 slow/calls 2 fast 0 slow 2 exhausted 0 pending 0 overtaken 0/",
    ),
    // A call that another seat has completed is pending until it is told.
    (
        "replay queue 8 0 s f0 f1",
        "0 exchange/1 end/",
        "put 7/|take/",
        0,
        "0 1 put 7 pending 0 - slow/1 1 take value 7 1 2 slow/calls 2 fast 0 slow 2 exhausted 0 pending 1 overtaken 0/",
    ),
    // One call of two is published.
    (
        "replay list 8 1 s f0 f1",
        "0 exchange/1 exchange/0 end/1 end/",
        "add 1/|add 2/",
        0,
        "0 1 add 1 yes 0 2 fast/1 1 add 2 yes 1 3 slow/calls 2 fast 1 slow 1 exhausted 0 pending 0 overtaken 0/",
    ),
    // One overtaking, and a second round.
    (
        "replay queue 8 1 s f0 f1",
        "0 exchange/1 end/1 exchange/0 exchange/1 end/0 end/",
        "put 7/|put 8/put 9/",
        0,
        "0 1 put 7 done 0 5 slow/1 1 put 8 done 1 2 fast/1 2 put 9 done 3 4 fast/calls 3 fast 2 slow 1 exhausted 0 pending 0 overtaken 1/",
    ),
    // A seat that looks helps the head, so it overtakes once.
    (
        "replay queue 16 1 s f0 f1",
        "0 exchange/1 end/1 exchange/0 exchange/1 end/1 end/1 end/0 end/",
        "put 7/|put 8/put 9/put 10/put 11/",
        0,
        "0 1 put 7 done 0 9 slow/1 1 put 8 done 1 2 fast/1 2 put 9 done 3 4 fast/1 3 put 10 done 5 6 fast/1 4 put 11 done 7 8 fast/calls 5 fast 4 slow 1 exhausted 0 pending 0 overtaken 1/",
    ),
    // A published call that never completes counts to the end.
    (
        "replay queue 8 1 s f0 f1",
        "0 exchange/1 end/1 exchange/0 exchange/1 end/",
        "put 7/|put 8/put 9/",
        0,
        "0 1 put 7 pending 0 - slow/1 1 put 8 done 1 2 fast/1 2 put 9 done 3 4 fast/calls 3 fast 2 slow 1 exhausted 0 pending 1 overtaken 1/",
    ),
    // One exchange of the queue word enters all eight seats.
    (
        "replay queue 16 0 s f0 f1 f2 f3 f4 f5 f6 f7",
        "0 5/1 5/2 5/3 5/4 5/5 5/6 5/7 5/7 end/7 end/0 end/1 end/2 end/3 end/4 end/5 end/6 end/",
        "put 0/|put 1/|put 2/|put 3/|put 4/|put 5/|put 6/|put 7/take/",
        0,
        "0 1 put 0 done 0 11 slow/1 1 put 1 done 1 12 slow/2 1 put 2 done 2 13 slow/3 1 put 3 done 3 14 slow/4 1 put 4 done 4 15 slow/5 1 put 5 done 5 16 slow/6 1 put 6 done 6 17 slow/7 1 put 7 done 7 8 slow/7 2 take value 0 9 10 slow/calls 9 fast 0 slow 9 exhausted 0 pending 0 overtaken 0/",
    ),
    // A removal from the tree.
    (
        "replay tree 8 0 s f0",
        "0 end/0 end/0 end/0 end/",
        "set 5 70/rem 5/rem 5/get 5/",
        0,
        "0 1 set 5 70 yes 0 1 slow/0 2 rem 5 yes 2 3 slow/0 3 rem 5 no 4 5 slow/0 4 get 5 absent 6 7 slow/calls 4 fast 0 slow 4 exhausted 0 pending 0 overtaken 0/",
    ),
    // A load of one seat.
    (
        "load list 65536 0 1 100 7",
        "",
        "",
        0,
        "calls 100 fast 0 slow 100 exhausted 0 pending 0 overtaken 0/",
    ),
];

#[test]
fn reports_of_slow_calls(rt: HostRuntime) -> Result<(), Fail> {
    compare(&rt, rt.alloc(), &SLOW)
}

#[test]
fn a_thread_on_the_slow_path(rt: HostRuntime) -> Result<(), Fail> {
    let alloc = rt.alloc();
    let mut files = files_of(alloc, "", "add 1/has 1/has 2/", &[], AMPLE)?;
    let mut sink = SinkInMemory::with_room(alloc, AMPLE, Vec::new(alloc))?;
    let status = ran(
        &rt,
        alloc,
        "run list 8 0 f0",
        &mut files,
        &mut sink,
        &NoGate,
    )?;
    let wanted = bytes_of(
        alloc,
        "0 1 add 1 yes 0 1 slow/0 2 has 1 yes 2 3 slow/0 3 has 2 no 4 5 slow/calls 3 fast 0 slow 3 exhausted 0 pending 0/",
    )?;
    assert_eq!(rt; sink.bytes(), wanted.as_slice());
    assert_eq!(rt; status, 0);
    Ok(())
}
