//! `nwf`: wait-free simulation of normalized lock-free structures, from command files to a report, and from a report and an
//! order of its calls to a verdict. What a person is told beside that goes to standard error, and no clause speaks of it.
#![tactic(auto)]

use checking::check_main;
use nwf_run::{HostFiles, HostOut, NoGate, nwf_main};
use person_messages::{Ending, tell};
use std::alloc::Global;
use std::process::ExitCode;
use std::rt::Runtime;
use std::sync::Wait;
use std::thread::Threads;
use std::{env, io};
use watched_outside::{WatchedFiles, WatchedOut};

/// The status where the host refuses the words of the command line for want of memory, and for any other
/// cause.
const NO_MEMORY: u8 = 6;

const NO_WORDS: u8 = 9;

/// The words after the program's name.
fn command_words(rt: &HostRuntime) -> io::Result<Vec<String>> {
    let mut words = Vec::new(rt.alloc());
    for word in env::args(rt)?.skip(1) {
        words.push(word)?;
    }
    Ok(words)
}

/// Whether the first word is `check`.
fn starts_check(words: &[String]) -> bool {
    match words {
        [command, ..] => command.as_str() == "check",
        [] => false,
    }
}

/// Serves the words, and tells a person what that came to where standard output doesn't say it all.
fn serve<R: Runtime + Threads + Wait + Sync>(rt: &R, alloc: Global, words: &[String]) -> u8 {
    let mut files = WatchedFiles::new(alloc, HostFiles::new(rt));
    let mut out = WatchedOut::new(alloc, HostOut::new(rt));
    let status = if starts_check(words) {
        check_main(alloc, words, &mut files, &mut out)
    } else {
        nwf_main(rt, alloc, words, &mut files, &mut out, &NoGate)
    };
    let ending = Ending {
        status,
        words,
        written: out.kept(),
        read: files.kept(),
    };
    tell(rt, alloc, &ending);
    status
}

fn main(rt: HostRuntime) -> ExitCode {
    let status = match command_words(&rt) {
        Ok(words) => serve(&rt, rt.alloc(), &words),
        Err(error) if error.kind() == io::ErrorKind::OutOfMemory => NO_MEMORY,
        Err(_) => NO_WORDS,
    };
    ExitCode::from(status)
}
