//! Taking a run back to where it made no step.
ghost use Rattle.std.specs.Prelude.{◌≡◌, ℕ, ◌<◌, ◌≤◌, length, map, slice_index};
ghost use Rattle.event_core.specs.Cores.{new_seats};

use crate::noting::word_at;
use crate::seats::Seat;
use fast_slow_engine::Setup;
use normal_traits::Normalized;
use step_memory::{Cells, Port, Request};

/// Gives each place the word that these have there, and 0 past the last of them.
pub fn rewrite(cells: &mut Cells, words: &[u64])
    requires count { length cells.old ≤ 4294967295 }
    ensures count { length cells.new ≡ length cells.old }
    ensures each { (place : ℕ) → place < length cells.new → slice_index cells.new place ≡ slice_index words.now place }
{
    let count = cells.words().len() as u32;
    for at in 0..count {
        let value = word_at(words, at);
        cells.apply(Request::Store { at, value });
    }
}

/// Takes all seats back to where they have made no call.
pub fn renew_seats<C: Normalized>(seats: &mut [Seat<C>], setup: Setup)
    requires seats { length seats.old ≡ setup.seats }
    ensures seats { seats.new ≡ new_seats setup 0 (map (λ seat. seat.file) seats.old) }
{
    for number in 0..setup.seats {
        seats[number as usize].renew(number, setup);
    }
}
