//! A set that eight threads share: each adds the same 40 keys, and counts those that were absent when it added them. A key is
//! absent for one thread alone, so the counts add up to the number of keys.
#![tactic(auto)]

ghost use Rattle.std.specs.Prelude.{◌≡◌};

use std::alloc::Global;
use std::sync::Wait;
use std::thread::Threads;
use std::{io, thread};
use wait_free::{Key, OpenError, Refused, SetHandle, SharedSet, open};

const KEYS: u32 = 40;

/// What one thread does. How many keys it was the first to add.
fn add_all<R: Wait>(rt: &R, shared: &SharedSet, mut set: SetHandle) -> Result<u32, Refused>
    requires table { set.handle.table ≡ shared.now.table }
{
    let mut first = 0u32;
    for number in 0..KEYS {
        if set.add(rt, shared, Key::of(number))? {
            first += 1;
        }
    }
    Ok(first)
}

/// Opens a set, and gives each thread a handle. How many keys each thread was the first to add.
fn add_in_threads<R: Threads + Wait + Sync>(
    rt: &R,
    alloc: Global,
) -> Result<Vec<Result<u32, Refused>>, OpenError> {
    let (shared, handles) = open(alloc, 8, 1024, 3)?;
    let counts = thread::map_vec(
        rt,
        handles,
        &|handle|
            requires table { handle.table ≡ shared.table }
        { add_all(rt, &shared, SetHandle { handle }) },
    )?;
    Ok(counts)
}

fn main(rt: HostRuntime) -> io::Result<()> {
    let counts = match add_in_threads(&rt, rt.alloc()) {
        Ok(counts) => counts,
        Err(error) => return println!(rt; "not opened: {error:?}"),
    };
    let mut all = 0u32;
    for count in counts {
        match count {
            Ok(count) => all = all.wrapping_add(count),
            Err(refused) => println!(rt; "a call was refused: {refused:?}")?,
        }
    }
    println!(rt; "eight threads added {all} keys")
}
