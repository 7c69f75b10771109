//! The words of the command line.
ghost use Rattle.std.specs.Prelude.{◌≡◌, ◌≤◌, Some, map, length, IfSome, string_bytes};
ghost use Rattle.std.specs.Option.{option_map};
ghost use Rattle.nwf_run.specs.CommandLine.{replay_words, run_words};
ghost use Rattle.nwf_run.specs.Said.{said_run};

use command_line::{client_named, number_in};
use lin_report::Client;

/// What the words of a run with threads say: those of a replay without a schedule.
#[derive(Clone, Copy, Debug)]
pub struct RunWords<'a> {
    pub client: Client,
    pub cap: u32,
    pub limit: u32,
    pub files: &'a [String],
}

/// What the words of a replay say: which structure, how many blocks there are, how often a call may fail on
/// its fast path, and the names of the files.
#[derive(Clone, Copy, Debug)]
pub struct ReplayWords<'a> {
    pub client: Client,
    pub cap: u32,
    pub limit: u32,
    pub schedule: &'a str,
    pub files: &'a [String],
}

/// The greatest number of blocks.
pub const MAX_CAP: u32 = 65_536;
/// The greatest contention limit.
pub const MAX_LIMIT: u32 = 255;
/// The most command files: one for each seat.
pub const MAX_FILES: usize = 8;

/// Reads `replay CLIENT CAP LIMIT SCHEDULE` and one to eight FILE words. Other words are no replay.
pub fn replay_words(words: &[String]) -> Option<ReplayWords<'_>>
    ensures words { option_map (λ w. record { client = w.client; cap = w.cap; limit = w.limit; schedule = Some w.schedule.now; files = map string_bytes w.files.now }) result ≡ replay_words (map string_bytes words.now) }
    ensures cap { IfSome result (λ w. (1 ≤ w.cap) × (w.cap ≤ 65536)) }
    ensures limit { IfSome result (λ w. w.limit ≤ 255) }
    ensures files { IfSome result (λ w. (1 ≤ length w.files.now) × (length w.files.now ≤ 8)) }
{
    let [command, client, cap, limit, schedule, files @ ..] = words else {
        return None;
    };
    if command.as_str() != "replay" || files.is_empty() || files.len() > MAX_FILES {
        return None;
    }
    match (
        client_named(client.as_str()),
        number_in(1, MAX_CAP, cap.as_str()),
        number_in(0, MAX_LIMIT, limit.as_str()),
    ) {
        (Some(client), Some(cap), Some(limit)) => Some(ReplayWords {
            client,
            cap,
            limit,
            schedule: schedule.as_str(),
            files,
        }),
        _ => None,
    }
}

/// Reads `run CLIENT CAP LIMIT` and one to eight FILE words. Other words are no run.
pub fn run_words(words: &[String]) -> Option<RunWords<'_>>
    ensures words { option_map said_run result ≡ run_words (map string_bytes words.now) }
    ensures cap { IfSome result (λ w. (1 ≤ w.cap) × (w.cap ≤ 65536)) }
    ensures limit { IfSome result (λ w. w.limit ≤ 255) }
    ensures files { IfSome result (λ w. (1 ≤ length w.files.now) × (length w.files.now ≤ 8)) }
{
    let [command, client, cap, limit, files @ ..] = words else {
        return None;
    };
    if command.as_str() != "run" || files.is_empty() || files.len() > MAX_FILES {
        return None;
    }
    match (
        client_named(client.as_str()),
        number_in(1, MAX_CAP, cap.as_str()),
        number_in(0, MAX_LIMIT, limit.as_str()),
    ) {
        (Some(client), Some(cap), Some(limit)) => Some(RunWords {
            client,
            cap,
            limit,
            files,
        }),
        _ => None,
    }
}
