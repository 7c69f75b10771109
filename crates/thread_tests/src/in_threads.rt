//! A queue is opened with its handles, each goes to a thread, which makes calls, and all are given back.
ghost use Rattle.std.specs.Prelude.{◌≡◌, ℕ, ◌<◌, ◌≤◌, [], IfOk, length, slice_index_or};
ghost use Rattle.handles.specs.Opening.{IsNewHandle};
ghost use Rattle.thread_tests.specs.InThreads.{HasCalledTwice, IsRunOfThreads};

use handles::{Handle, OpenError, close, open};
use lin_report::Op;
use lin_report::calls::{PUT, TAKE};
use ms_queue::MsQueue;
use shared_memory::{Shared, Totals};
use std::alloc::Global;
use std::sync::Wait;
#[cfg(test)]
use std::test::Fail;
use std::thread;
use std::thread::Threads;
use thread_runs::Stepwise;

/// What a thread does with its handle: it puts its number, and takes.
fn put_and_take<R: Wait>(
    rt: &R,
    shared: &Shared<MsQueue>,
    number: u32,
    handle: &mut Handle<MsQueue>,
)
    requires table { handle.old.table ≡ shared.now.table }
    requires unused { handle.old.view.receipts ≡ [] }
    ensures called { HasCalledTwice number handle.old handle.new }
{
    let put = Op {
        code: PUT,
        key: 0,
        value: number,
    };
    let Ok(_) = handle.call::<Stepwise, R>(rt, shared, put) else {
        unreachable!()
    };
    let take = Op {
        code: TAKE,
        key: 0,
        value: 0,
    };
    let Ok(_) = handle.call::<Stepwise, R>(rt, shared, take) else {
        unreachable!()
    };
}

/// Each handle in a thread of its own, where one can be made.
fn call_in_threads<R: Threads + Wait + Sync>(
    rt: &R,
    shared: &Shared<MsQueue>,
    handles: &mut [Handle<MsQueue>],
)
    requires few { (0 < length handles.old) × (length handles.old ≤ 8) }
    requires new { (seat : ℕ) (d : _) → seat < length handles.old → IsNewHandle shared.now seat (slice_index_or handles.old seat d) }
    ensures called { (seat : ℕ) (d : _) → seat < length handles.old → HasCalledTwice seat (slice_index_or handles.old seat d) (slice_index_or handles.new seat d) }
{
    let count = handles.len();
    thread::for_each_mut(
        rt,
        handles,
        count,
        &|seat: usize, handle: &mut Handle<MsQueue>|
            requires seat { seat < 8 }
            requires table { handle.now.table ≡ shared.now.table }
            requires unused { handle.now.view.receipts ≡ [] }
            ensures called { HasCalledTwice seat handle.old handle.new }
        { put_and_take(rt, shared, seat as u32, handle) },
    );
}

/// A queue is opened with these numbers, a thread for each seat puts its number and takes, and the queue is closed.
pub fn run_calls<R: Threads + Wait + Sync>(
    rt: &R,
    alloc: Global,
    seats: u32,
    cap: u32,
    limit: u32,
) -> Result<Totals, OpenError>
    ensures run { IfOk result (λ totals. IsRunOfThreads seats cap limit totals.ticks totals.claimed) }
{
    let (shared, mut handles) = open::<MsQueue>(alloc, seats, cap, limit)?;
    call_in_threads(rt, &shared, handles.as_mut_slice());
    Ok(close(shared, handles))
}

#[test]
fn eight_threads_have_a_handle_each(rt: HostRuntime) -> Result<(), Fail> {
    // An exchange is lost to one that is won, and sixteen calls win fewer than 255: each call stays on the fast path.
    let totals = run_calls(&rt, rt.alloc(), 8, 65536, 255);
    assert_eq!(rt;
        totals,
        Ok(Totals {
            ticks: 32,
            claimed: 8
        })
    );
    let totals = run_calls(&rt, rt.alloc(), 1, 1, 0);
    assert_eq!(rt; totals.map(|totals| totals.ticks), Ok(4));
    Ok(())
}

#[test]
fn bad_numbers_are_told(rt: HostRuntime) -> Result<(), Fail> {
    let cases = [
        (0, 1, 0, OpenError::Seats),
        (9, 0, 256, OpenError::Seats),
        (1, 0, 0, OpenError::Capacity),
        (8, 65537, 256, OpenError::Capacity),
        (8, 65536, 256, OpenError::Limit),
    ];
    for (seats, cap, limit, error) in cases {
        assert_eq!(rt; run_calls(&rt, rt.alloc(), seats, cap, limit), Err(error));
    }
    Ok(())
}
