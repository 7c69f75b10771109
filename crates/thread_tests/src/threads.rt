//! Eight threads meet at a gate before their first calls.
ghost use Rattle.std.specs.Prelude.{◌≡◌, All, IfSome, length};
ghost use Rattle.lin_report.specs.CommandFiles.{IsCommandFile};
ghost use Rattle.lin_report.specs.Object.{queue_object};

use fast_slow_engine::Setup;
use lin_report::{Client, Op, Receipt};
use ms_queue::MsQueue;
use normal_traits::Normalized;
use script_reader::read_script;
use shared_memory::SeatPort;
use std::alloc::Global;
use std::sync::atomic::{AtomicU64, Ordering};
use std::test::Fail;
use thread_runs::Gate;
use thread_runs::run::run;

/// Each seat waits before its first call until all eight are there.
#[derive(Drop)]
struct Meeting {
    here: AtomicU64,
    gave_up: AtomicU64,
    answered: AtomicU64,
    ticks: AtomicU64,
}

impl Gate for Meeting {
    fn before(&self, seat: u32, number: u32) {
        if number != 1 {
            return;
        }
        self.here
            .fetch_or(1u64.wrapping_shl(seat), Ordering::SeqCst);
        for _ in 0..1_000_000_000u32 {
            if self.here.load(Ordering::SeqCst) == 255 {
                return;
            }
        }
        self.gave_up.store(1, Ordering::SeqCst);
    }

    fn after<C: Normalized>(&self, receipt: &Receipt, _port: &SeatPort<C>) {
        self.answered.fetch_add(1, Ordering::SeqCst);
        self.ticks
            .fetch_add(receipt.begin.wrapping_add(receipt.end), Ordering::SeqCst);
    }
}

/// One put and one take.
fn file(alloc: Global) -> Option<Vec<Op>>
    ensures { IfSome result (λ file. IsCommandFile queue_object file.items) }
{
    read_script(alloc, b"put 7\ntake\n", Client::Queue).ok()
}

/// The same for eight seats.
fn eight_files(alloc: Global) -> Option<Vec<Vec<Op>>>
    ensures { IfSome result (λ files. (length files.items ≡ 8) × All (λ file. IsCommandFile queue_object file.items) files.items) }
{
    let mut files = Vec::new(alloc);
    for _ in 0..8u32 {
        files.push(file(alloc)?).ok()?;
    }
    Some(files)
}

#[test]
fn eight_threads_meet(rt: HostRuntime) -> Result<(), Fail> {
    let gate = Meeting {
        here: AtomicU64::new(0),
        gave_up: AtomicU64::new(0),
        answered: AtomicU64::new(0),
        ticks: AtomicU64::new(0),
    };
    let Some(files) = eight_files(rt.alloc()) else {
        panic!(rt; "no memory")
    };
    // An exchange is lost to one that is won, and sixteen calls win fewer than 255: each call stays on the fast path.
    let setup = Setup {
        seats: 8,
        cap: 65536,
        limit: 255,
    };
    let Ok((lines, totals)) = run::<_, MsQueue, _>(&rt, rt.alloc(), setup, files, &gate) else {
        panic!(rt; "no memory")
    };
    assert_eq!(rt; lines.len(), 16);
    assert_eq!(rt; totals.ticks, 32);
    assert_eq!(rt; totals.claimed, 8);
    assert_eq!(rt; gate.gave_up.load(Ordering::SeqCst), 0);
    assert_eq!(rt; gate.answered.load(Ordering::SeqCst), 16);
    assert_eq!(rt; gate.ticks.load(Ordering::SeqCst), 496);
    Ok(())
}
