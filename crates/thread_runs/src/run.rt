//! A whole run: the memory is opened, each worker makes its calls, and the ports are gathered and closed.
ghost use Rattle.std.specs.Prelude.{◌≡◌, ◌≤◌, [], map, flat_map, length, All, IfOk, vec_capacity};
ghost use Rattle.lin_report.specs.CommandFiles.{IsCommandFile};
ghost use Rattle.thread_runs.specs.Whole.{IsRun, IsRunBySeats};

use crate::gate::Gate;
use crate::gather::gather_all;
use crate::opening::{open, room_for, room_for_lines};
use crate::threads::run_workers;
use crate::tries::{Stepwise, Tries};
use fast_slow_engine::Setup;
use lin_report::{NoMemory, Op, Receipt};
use normal_traits::Normalized;
use shared_memory::Totals;
use std::alloc::Global;
use std::sync::Wait;
use std::thread::Threads;

/// How many calls the files make.
fn calls_in(files: &[Vec<Op>]) -> usize
    requires count { length files.now ≤ 8 }
    requires few { All (λ file. length file.items ≤ 65535) files.now }
    ensures { result ≡ length (flat_map (λ file. file.items) files.now) }
{
    let mut calls = 0;
    for i in 0..files.len() {
        calls += files[i].len();
    }
    calls
}

/// All lines in one vector, in the order in which they stand.
fn put_together(rooms: &[Vec<Receipt>], mut lines: Vec<Receipt>) -> Vec<Receipt>
    requires none { lines.items ≡ [] }
    requires room { length (flat_map (λ room. room.items) rooms.now) ≤ vec_capacity lines }
    ensures { result.items ≡ flat_map (λ room. room.items) rooms.now }
{
    for i in 0..rooms.len() {
        let Ok(()) = lines.extend_from_slice(rooms[i].as_slice()) else {
            unreachable!()
        };
    }
    lines
}

/// Runs the files, each in a thread of its own. The lines of each seat stand for themselves, from the last seat
/// down.
fn run_by_seats<
    R: Threads + Wait + Sync,
    C: Normalized + Send + Sync,
    T: Tries<C> + Send + Sync,
    G: Gate + Sync,
>(
    rt: &R,
    alloc: Global,
    setup: Setup,
    files: Vec<Vec<Op>>,
    gate: &G,
) -> Result<(Vec<Vec<Receipt>>, Totals), NoMemory>
    requires count { length files.items ≡ setup.seats }
    requires files { All (λ file. IsCommandFile C.form.object file.items) files.items }
    ensures run { IfOk result (λ r. IsRunBySeats C.form setup (map (λ v. v.items) files.items) (map (λ v. v.items) r.0.items) r.1.ticks r.1.claimed) }
{
    let rooms = room_for(alloc, files.len())?;
    let (shared, mut workers) = open::<C>(alloc, setup, files)?;
    run_workers::<R, C, T, G>(rt, &shared, gate, workers.as_mut_slice());
    let (port, receipts) = gather_all(&shared, workers, rooms);
    let totals = shared.close(port);
    Ok((receipts, totals))
}

/// Runs the files, each in a thread of its own: a worker whose thread can't be made is run by the caller. All
/// memory is taken before the first thread starts. The tries of a call are made in one piece, as `T` makes them. The
/// lines stand seat by seat, from the last seat down.
pub fn run_whole<
    R: Threads + Wait + Sync,
    C: Normalized + Send + Sync,
    T: Tries<C> + Send + Sync,
    G: Gate + Sync,
>(
    rt: &R,
    alloc: Global,
    setup: Setup,
    files: Vec<Vec<Op>>,
    gate: &G,
) -> Result<(Vec<Receipt>, Totals), NoMemory>
    requires count { length files.items ≡ setup.seats }
    requires files { All (λ file. IsCommandFile C.form.object file.items) files.items }
    ensures run { IfOk result (λ r. IsRun C.form setup (map (λ v. v.items) files.items) r.0.items r.1.ticks r.1.claimed) }
{
    let lines = room_for_lines(alloc, calls_in(files.as_slice()))?;
    let (rooms, totals) = run_by_seats::<R, C, T, G>(rt, alloc, setup, files, gate)?;
    Ok((put_together(rooms.as_slice(), lines), totals))
}

/// The same, where each call goes step by step.
pub fn run<R: Threads + Wait + Sync, C: Normalized + Send + Sync, G: Gate + Sync>(
    rt: &R,
    alloc: Global,
    setup: Setup,
    files: Vec<Vec<Op>>,
    gate: &G,
) -> Result<(Vec<Receipt>, Totals), NoMemory>
    requires count { length files.items ≡ setup.seats }
    requires files { All (λ file. IsCommandFile C.form.object file.items) files.items }
    ensures run { IfOk result (λ r. IsRun C.form setup (map (λ v. v.items) files.items) r.0.items r.1.ticks r.1.claimed) }
{
    run_whole::<R, C, Stepwise, G>(rt, alloc, setup, files, gate)
}
