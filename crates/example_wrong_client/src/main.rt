//! A wrong client, and the schedules that show its mistake. Two seats count to two, each by a load of the count and a store of
//! one more. Every order of their steps is replayed. Where both load before one of them stores, a count is lost. An exchange
//! from the count that was loaded, as the client laws ask for each change, fails there, so that the seat can begin anew.
#![tactic(auto)]

use std::alloc::{AllocError, Global};
use std::io;
use step_memory::{Cells, Port, Request};

/// The place of the count.
const COUNT: u32 = 0;

/// The orders in which two seats can make two steps each, the number of a seat for each step.
const ORDERS: [&str; 6] = ["0011", "0101", "0110", "1001", "1010", "1100"];

/// Makes the next step of a seat that has loaded this count, or nothing yet. What it has loaded then.
fn step(cells: &mut Cells, loaded: Option<u64>) -> Option<u64> {
    match loaded {
        None => Some(cells.apply(Request::Load { at: COUNT }).before),
        Some(count) => {
            let value = count.wrapping_add(1);
            let _ = cells.apply(Request::Store { at: COUNT, value });
            None
        }
    }
}

/// The count after the steps of both seats in an order.
fn count_after(alloc: Global, order: &str) -> Result<u64, AllocError> {
    let mut cells = Cells::new([0].to_vec(alloc)?);
    let mut loaded = [None, None];
    for name in order.bytes() {
        let seat = usize::from(name == b'1');
        loaded[seat] = step(&mut cells, loaded[seat]);
    }
    Ok(cells.words().first().copied().unwrap_or(0))
}

fn main(rt: HostRuntime) -> io::Result<()> {
    for order in ORDERS {
        let count = count_after(rt.alloc(), order)?;
        let found = if count == 2 {
            "right"
        } else {
            "a count is lost"
        };
        println!(rt; "steps by {order}: {count}, {found}")?;
    }
    Ok(())
}
