//! Lists by what becomes of their exchanges, states that no run shows, and blocks that are read.
ghost use Rattle.cas_executor.specs.FastRuns.{IsShort};
ghost use Rattle.cas_executor.specs.BlockReads.{IsReading};

use super::*;
use normal_traits::{Entry, List};
use std::test::Fail;
use step_memory::{Cells, Port, Request, Seen};

#[test]
fn a_list_of_one_entry(rt: HostRuntime) {
    for (won, stop) in [(false, 0), (true, 1)] {
        let mut list = List::new();
        list.push(entry(46));
        let mut run = FastRun::new(list);
        assert_eq!(rt; run.request(), exchange(46));
        assert!(rt; run.next_is_listed());
        assert_eq!(rt; run.feed(Seen { before: 5, won }), Execution::Stopped(stop));
    }
}

#[test]
fn a_list_of_two_entries(rt: HostRuntime) {
    for (first, second, stop) in [(false, false, 0), (true, false, 1), (true, true, 2)] {
        let mut list = List::new();
        list.push(entry(46));
        list.push(entry(78));
        let mut run = FastRun::new(list);
        let seen = Seen {
            before: 5,
            won: first,
        };
        let mut execution = run.feed(seen);
        if execution == Execution::Running {
            assert_eq!(rt; run.request(), exchange(78));
            execution = run.feed(Seen {
                before: 5,
                won: second,
            });
        }
        assert_eq!(rt; execution, Execution::Stopped(stop));
    }
}

fn entry(target: u32) -> Entry {
    Entry {
        target,
        from: 5,
        to: 6,
    }
}

fn exchange(at: u32) -> Request {
    Request::Exchange { at, from: 5, to: 6 }
}

#[test]
fn states_that_no_run_shows(rt: HostRuntime) {
    for (state, execution) in [
        (0, Execution::Running),
        (1, Execution::Running),
        (2, Execution::Stopped(0)),
        (3, Execution::Stopped(0)),
    ] {
        let mut run = SlowRun::new(1, one_entry());
        let seen = Seen {
            before: state,
            won: true,
        };
        assert!(rt; !run.next_is_listed());
        assert_eq!(rt; run.feed(seen), execution);
        assert_eq!(rt; run.next_is_listed(), state == 0);
    }
}

#[test]
fn a_block_is_read(rt: HostRuntime) -> Result<(), Fail> {
    for (length, loads) in [(0, 6), (1, 6), (2, 9), (3, 6)] {
        let mut cells = Cells::new([0; 96].to_vec(rt.alloc())?);
        for (at, value) in [
            (65, 17),
            (66, length),
            (67, (1 << 32) + 46),
            (68, 5),
            (69, 6),
            (70, 78),
            (71, 5),
            (72, 6),
            (75, 19),
        ] {
            cells.apply(Request::Store { at, value });
        }
        let (made, op, value, list) = read_whole(BlockRead::new(1), &mut cells);
        assert_eq!(rt; (made, op, value), (loads, 17, 19));
        assert_eq!(rt;
            list.as_slice(),
            &[entry(46), entry(78)][..loads as usize / 3 - 1]
        );
    }
    Ok(())
}

/// How many words a read loads until it gives what the block has, and that. One that loads ten is given up.
fn read_whole(read: BlockRead, cells: &mut Cells) -> (u32, u64, u64, List)
    requires { IsReading read }
{
    let mut read = read;
    for loads in 1..10 {
        if let Some((op, value, list)) = read.feed(cells.apply(read.request())) {
            return (loads, op, value, list);
        }
    }
    (10, 0, 0, List::new())
}

fn one_entry() -> List
    ensures { IsShort result.items }
{
    let mut list = List::new();
    list.push(Entry {
        target: 46,
        from: 0,
        to: 33_554_437,
    });
    list
}
