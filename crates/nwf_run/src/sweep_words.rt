//! The words of a sweep.
ghost use Rattle.std.specs.Prelude.{◌≡◌, ◌≤◌, map, length, IfSome, string_bytes};
ghost use Rattle.std.specs.Option.{option_map};
ghost use Rattle.nwf_run.specs.CommandLine.{sweep_words};
ghost use Rattle.nwf_run.specs.Said.{said_sweep};

use crate::words::{MAX_CAP, MAX_FILES, MAX_LIMIT, RunWords};
use command_line::{client_named, number_in};

/// What the words of a sweep say: those of a run, and up to how many steps its first seat makes before it stops.
#[derive(Clone, Copy, Debug)]
pub struct SweepWords<'a> {
    pub of_files: RunWords<'a>,
    pub most: u32,
}

/// The greatest number of steps of the seat that stops.
const MAX_STEPS: u32 = 255;

/// Reads `sweep CLIENT CAP LIMIT K` and one to eight FILE words. Other words are no sweep.
pub fn sweep_words(words: &[String]) -> Option<SweepWords<'_>>
    ensures words { option_map said_sweep result ≡ sweep_words (map string_bytes words.now) }
    ensures cap { IfSome result (λ w. (1 ≤ w.of_files.cap) × (w.of_files.cap ≤ 65536)) }
    ensures limit { IfSome result (λ w. w.of_files.limit ≤ 255) }
    ensures most { IfSome result (λ w. w.most ≤ 255) }
    ensures files { IfSome result (λ w. (1 ≤ length w.of_files.files.now) × (length w.of_files.files.now ≤ 8)) }
{
    let [command, client, cap, limit, most, files @ ..] = words else {
        return None;
    };
    if command.as_str() != "sweep" || files.is_empty() || files.len() > MAX_FILES {
        return None;
    }
    match (
        client_named(client.as_str()),
        number_in(1, MAX_CAP, cap.as_str()),
        number_in(0, MAX_LIMIT, limit.as_str()),
        number_in(0, MAX_STEPS, most.as_str()),
    ) {
        (Some(client), Some(cap), Some(limit), Some(most)) => Some(SweepWords {
            of_files: RunWords {
                client,
                cap,
                limit,
                files,
            },
            most,
        }),
        _ => None,
    }
}
