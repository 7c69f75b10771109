//! A work queue that four threads share: each puts the numbers 1 to 25, and then takes as many numbers as it put. A thread
//! finds a number at each take, since no thread takes more than it has put, and each number is taken once.
#![tactic(auto)]

ghost use Rattle.std.specs.Prelude.{◌≡◌};

use std::alloc::Global;
use std::sync::Wait;
use std::thread::Threads;
use std::{io, thread};
use wait_free::{OpenError, QueueHandle, Refused, SharedQueue, open};

const NUMBERS: u32 = 25;

/// What one thread does. The sum of the numbers that it took.
fn work<R: Wait>(rt: &R, shared: &SharedQueue, mut queue: QueueHandle) -> Result<u32, Refused>
    requires table { queue.handle.table ≡ shared.now.table }
{
    for number in 1..=NUMBERS {
        queue.put(rt, shared, number)?;
    }
    let mut sum = 0u32;
    for _ in 0..NUMBERS {
        sum = sum.wrapping_add(queue.take(rt, shared)?.unwrap_or(0));
    }
    Ok(sum)
}

/// Opens a queue, and gives each thread a handle. What each thread took.
fn work_in_threads<R: Threads + Wait + Sync>(
    rt: &R,
    alloc: Global,
) -> Result<Vec<Result<u32, Refused>>, OpenError> {
    let (shared, handles) = open(alloc, 4, 1024, 3)?;
    let sums = thread::map_vec(
        rt,
        handles,
        &|handle|
            requires table { handle.table ≡ shared.table }
        { work(rt, &shared, QueueHandle { handle }) },
    )?;
    Ok(sums)
}

fn main(rt: HostRuntime) -> io::Result<()> {
    let sums = match work_in_threads(&rt, rt.alloc()) {
        Ok(sums) => sums,
        Err(error) => return println!(rt; "not opened: {error:?}"),
    };
    let mut all = 0u32;
    for sum in sums {
        match sum {
            Ok(sum) => all = all.wrapping_add(sum),
            Err(refused) => println!(rt; "a call was refused: {refused:?}")?,
        }
    }
    println!(rt; "the numbers that were taken add up to {all}")
}
