//! The memory and the workers as a run opens. All that the run needs is taken here, before the first thread.
ghost use Rattle.std.specs.Prelude.{◌≡◌, ◌≢◌, ℕ, ◌+◌, ◌-◌, ◌<◌, ◌≤◌, [], false, length, All, slice_index_or, vec_capacity, IfOk};
ghost use Rattle.fast_slow_engine.specs.PhaseTable.{mech_new};
ghost use Rattle.shared_memory.specs.Views.{new_view};
ghost use Rattle.lin_report.specs.CommandFiles.{IsCommandFile};
ghost use Rattle.thread_runs.specs.Placed.{IsPlaced, root_view};

use crate::worker::Worker;
use fast_slow_engine::{Machine, Setup};
use lin_report::{NoMemory, Op, Path, Receipt, Reply};
use normal_traits::Normalized;
use shared_memory::{SeatPort, Shared};
use std::alloc::Global;
use std::mem;

/// An empty vector with room for so many.
pub fn room_for<T: Drop>(alloc: Global, count: usize) -> Result<Vec<T>, NoMemory>
    ensures items { IfOk result (λ room. room.items ≡ []) }
    ensures capacity { IfOk result (λ room. vec_capacity room ≡ count) }
{
    Vec::with_capacity(alloc, count).map_err(|_| NoMemory)
}

/// The same for lines. Each place is written once, so that no page of it is touched for the first time by a
/// thread.
pub fn room_for_lines(alloc: Global, count: usize) -> Result<Vec<Receipt>, NoMemory>
    ensures items { IfOk result (λ room. room.items ≡ []) }
    ensures capacity { IfOk result (λ room. count ≤ vec_capacity room) }
{
    let unused = Receipt {
        seat: 0,
        number: 0,
        op: Op::default(),
        reply: Reply::Done,
        begin: 0,
        end: 0,
        path: Path::Fast,
    };
    let mut room = Vec::new(alloc);
    if room.resize(count, unused).is_err() {
        return Err(NoMemory);
    }
    room.clear();
    Ok(room)
}

/// The worker of a seat that made no call.
fn new_worker<C: Normalized>(
    alloc: Global,
    port: SeatPort<C>,
    seat: u32,
    setup: Setup,
    commands: Vec<Op>,
) -> Result<Worker<C>, NoMemory>
    requires seat { seat < setup.seats }
    requires port { (port.view.machine ≡ mech_new seat setup) × (port.view.receipts ≡ []) }
    requires file { IsCommandFile C.form.object commands.items }
    ensures { IfOk result (λ w. IsPlaced C.form.object port.table port.view commands.items w) }
{
    let receipts = room_for_lines(alloc, commands.len())?;
    Ok(Worker {
        seat,
        port,
        machine: Machine::new(seat, setup),
        commands,
        receipts,
    })
}

/// Takes the file of a seat out, and leaves none there. So no command is copied.
fn take_file(alloc: Global, files: &mut Vec<Vec<Op>>, seat: usize) -> Vec<Op>
    requires seat { seat < length files.old.items }
    ensures file { (e : _) → result ≡ slice_index_or files.old.items seat e }
    ensures count { length files.new.items ≡ length files.old.items }
    ensures others { (k : ℕ) (e : _) → k ≢ seat → slice_index_or files.new.items k e ≡ slice_index_or files.old.items k e }
{
    mem::replace(&mut files[seat], Vec::new(alloc))
}

/// Splits the ports of the other seats off that of seat 0, and takes their files out.
fn split_all<C: Normalized>(
    alloc: Global,
    shared: &Shared<C>,
    root: &mut SeatPort<C>,
    setup: Setup,
    files: &mut Vec<Vec<Op>>,
    workers: &mut Vec<Worker<C>>,
) -> Result<(), NoMemory>
    requires count { length files.old.items ≡ setup.seats }
    requires files { All (λ file. IsCommandFile C.form.object file.items) files.old.items }
    requires root { (root.old.table ≡ shared.now.table) × (root.old.view ≡ root_view setup 0) }
    requires room { (workers.old.items ≡ []) × (length files.old.items ≤ vec_capacity workers.old) }
    ensures root { IfOk result (λ _. (root.new.table ≡ shared.now.table) × (root.new.view ≡ root_view setup (length files.old.items - 1))) }
    ensures room { IfOk result (λ _. (length workers.new.items + 1 ≡ length files.old.items) × (length files.old.items ≤ vec_capacity workers.new)) }
    ensures workers { IfOk result (λ _. (j : ℕ) (d : _) (e : _) → j + 1 < length files.old.items → IsPlaced C.form.object shared.now.table (new_view (j + 1) setup false) (slice_index_or files.old.items (j + 1) e).items (slice_index_or workers.new.items j d)) }
    ensures first { IfOk result (λ _. (length files.new.items ≡ length files.old.items) × ((e : _) → slice_index_or files.new.items 0 e ≡ slice_index_or files.old.items 0 e)) }
{
    for seat in 1..files.len() {
        let port = shared.split(root, seat as u32);
        let commands = take_file(alloc, files, seat);
        workers.push_reserved(new_worker(alloc, port, seat as u32, setup, commands)?);
    }
    Ok(())
}

/// The memory with a worker for each file. That of seat 0 stands last.
pub fn open<C: Normalized>(
    alloc: Global,
    setup: Setup,
    mut files: Vec<Vec<Op>>,
) -> Result<(Shared<C>, Vec<Worker<C>>), NoMemory>
    requires count { length files.items ≡ setup.seats }
    requires files { All (λ file. IsCommandFile C.form.object file.items) files.items }
    ensures count { IfOk result (λ r. length r.1.items ≡ length files.items) }
    ensures setup { IfOk result (λ r. r.0.setup ≡ setup) }
    ensures others { IfOk result (λ r. (j : ℕ) (d : _) (e : _) → j + 1 < length files.items → IsPlaced C.form.object r.0.table (new_view (j + 1) setup false) (slice_index_or files.items (j + 1) e).items (slice_index_or r.1.items j d)) }
    ensures root { IfOk result (λ r. (d : _) (e : _) → IsPlaced C.form.object r.0.table (root_view setup (length files.items - 1)) (slice_index_or files.items 0 e).items (slice_index_or r.1.items (length files.items - 1) d)) }
{
    let (shared, mut root) = Shared::make(alloc, setup)?;
    let mut workers = room_for(alloc, files.len())?;
    split_all(alloc, &shared, &mut root, setup, &mut files, &mut workers)?;
    let commands = take_file(alloc, &mut files, 0);
    workers.push_reserved(new_worker(alloc, root, 0, setup, commands)?);
    Ok((shared, workers))
}
