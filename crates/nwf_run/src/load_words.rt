//! The words of a load.
ghost use Rattle.std.specs.Prelude.{◌≡◌, ◌≤◌, map, IfSome, string_bytes};
ghost use Rattle.nwf_run.specs.CommandLine.{load_words};

use crate::words::{MAX_CAP, MAX_LIMIT};
use client_reports::Load;
use command_line::{client_named, number_in};

/// The most seats.
const MAX_THREADS: u32 = 8;
/// The most calls of a seat.
const MAX_CALLS: u32 = 65_535;

/// Reads `load CLIENT CAP LIMIT THREADS CALLS SEED`. Other words are no load.
pub fn load_words(words: &[String]) -> Option<Load>
    ensures words { result ≡ load_words (map string_bytes words.now) }
    ensures cap { IfSome result (λ w. (1 ≤ w.cap) × (w.cap ≤ 65536)) }
    ensures limit { IfSome result (λ w. w.limit ≤ 255) }
    ensures threads { IfSome result (λ w. (1 ≤ w.threads) × (w.threads ≤ 8)) }
    ensures calls { IfSome result (λ w. w.calls ≤ 65535) }
{
    let [command, client, cap, limit, threads, calls, seed] = words else {
        return None;
    };
    if command.as_str() != "load" {
        return None;
    }
    Some(Load {
        client: client_named(client.as_str())?,
        cap: number_in(1, MAX_CAP, cap.as_str())?,
        limit: number_in(0, MAX_LIMIT, limit.as_str())?,
        threads: number_in(1, MAX_THREADS, threads.as_str())?,
        calls: number_in(1, MAX_CALLS, calls.as_str())?,
        seed: number_in(0, u32::MAX, seed.as_str())?,
    })
}
