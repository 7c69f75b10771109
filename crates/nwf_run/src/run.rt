//! `run`: runs command files, each in a thread of its own, and writes the report.
ghost use Rattle.std.specs.Prelude.{◌≡◌, ◌≢◌, ◌↔◌, ◌⊎◌, ◌≤◌, ◌+◌, ℕ, List, None, map, length, IfOk, IfErr, IsSomeAnd, string_bytes};
ghost use Rattle.std.specs.Io.KnownBytes.{Appends};
ghost use Rattle.script_reader.specs.declared.causes.Refusal.{Refusal};
ghost use Rattle.whole_files.specs.Outside.{Rose, AppendsPrefix, WritesMessage};
ghost use Rattle.nwf_run.specs.Reading.{FaultsAsTold, Opens, OpensUntil, Reaches, Refuses, StopsReading};
ghost use Rattle.nwf_run.specs.Replaying.{AreRunsFor, Makes, OpensAll, OpensFor, OpensSome, RunsMeetHeadline, StopsFor, text_for};
ghost use Rattle.client_reports.specs.Runs.{FilesRun};
ghost use Rattle.nwf_run.specs.Said.{said_run};
ghost use Rattle.command_line.specs.Lines.{NO_MEMORY_LINE, USAGE_LINE, unread_line};
ghost use Rattle.nwf_run.specs.Stops.{status_of, refused_message};
ghost use Rattle.client_reports.specs.Sweeps.{SomeExhausts};
ghost use Rattle.nwf_run.specs.CommandLine.{files_asked, run_asked, client_asked};
ghost use Rattle.nwf_run.specs.CommandLine.Asked.{a_run};
ghost use Rattle.nwf_run.specs.declared.stops.Stop.{Stop};

use crate::replay::finish;
use crate::scripts::read_command_files;
use crate::stops::Stop;
use crate::words::{RunWords, run_words};
use client_reports::{Gate, Replayed, make_thread_report};
use std::alloc::Global;
use std::sync::Wait;
use std::thread::Threads;
use whole_files::{Files, Sink};

/// Reads the files and makes the report of their run.
fn run_files<R: Threads + Wait + Sync, F: Files, G: Gate + Sync>(
    rt: &R,
    alloc: Global,
    words: &RunWords<'_>,
    files: &mut F,
    gate: &G,
) -> Result<Replayed, Stop>
    requires cap { (1 ≤ words.now.cap) × (words.now.cap ≤ 65536) }
    requires limit { words.now.limit ≤ 255 }
    requires some { 1 ≤ length words.now.files.now }
    requires few { length words.now.files.now ≤ 8 }
    ensures text { IfOk result (λ made. Makes (F.tells files.old) (F.held files.old) (a_run (said_run words.now)) made.text.items made.exhausted) }
    ensures stops { IfErr result (StopsReading (F.tells files.old) (F.held files.old) (said_run words.now)) }
    ensures faults { FaultsAsTold (F.faults files.old) (F.faults files.new) result }
    ensures opened { OpensUntil (said_run words.now) (F.faults files.old) (F.opened files.old) (F.opened files.new) result }
    ensures held { (n : List ℕ) → F.held files.new n ≡ F.held files.old n }
{
    let commands = read_command_files(alloc, words, files)?;
    let made = make_thread_report(
        rt,
        alloc,
        words.client,
        words.cap,
        words.limit,
        commands,
        gate,
    )?;
    Ok(made)
}

/// The report that the words ask for, or why there is none.
fn answer_run<R: Threads + Wait + Sync, F: Files, G: Gate + Sync>(
    rt: &R,
    alloc: Global,
    words: &[String],
    files: &mut F,
    gate: &G,
) -> Result<Replayed, Stop>
    ensures text { IfOk result (λ made. IsSomeAnd (run_asked (map string_bytes words.now)) (λ a. Makes (F.tells files.old) (F.held files.old) a made.text.items made.exhausted)) }
    ensures stops { IfErr result (StopsFor (F.tells files.old) (F.held files.old) (run_asked (map string_bytes words.now))) }
    ensures faults { FaultsAsTold (F.faults files.old) (F.faults files.new) result }
    ensures opened { OpensFor (run_asked (map string_bytes words.now)) (F.faults files.old) (F.opened files.old) (F.opened files.new) result }
    ensures held { (n : List ℕ) → F.held files.new n ≡ F.held files.old n }
{
    match run_words(words) {
        Some(words) => run_files(rt, alloc, &words, files, gate),
        None => Err(Stop::Usage),
    }
}

/// Serves the words `run CLIENT CAP LIMIT` and one to eight FILE words: reads the command files and makes their
/// calls on one table of atomic words, in a thread for each file where one can be made, and writes the report. The
/// gate is told of each call by the thread that makes it.
///
/// The status is 0 where the report was written, 2 where the words are others, 3 where a file isn't
/// accepted, 4 where one couldn't be read, 5 where the report couldn't be written, 6 where there was no
/// memory, and 7 where the report was written and a call of it found no block left. With 2, 3, 4 and 6 a
/// line that says so is written in place of a report. The first file is file 1. All memory is taken before the
/// first thread starts, so 6 can't come after it.
pub fn run_main<R: Threads + Wait + Sync, F: Files, K: Sink, G: Gate + Sync>(
    rt: &R,
    alloc: Global,
    words: &[String],
    files: &mut F,
    out: &mut K,
    gate: &G,
) -> u8
    // The words alone decide whether they are served.
    ensures usage { (result ≡ 2) ↔ (run_asked (map string_bytes words.now) ≡ None) }

    // What is written for accepted files is the report of a run of them, in which every command was made and
    // answered, and which meets the headline in the order in which the threads made its steps: all of it or,
    // after a fault of the sink, its first bytes; the status says whether a call of it found no block left.
    ensures done { result ≡ 0 → IsSomeAnd (run_asked (map string_bytes words.now)) (λ a. (runs : List FilesRun) × AreRunsFor (F.tells files.old) (F.held files.old) a runs × RunsMeetHeadline (client_asked a) runs × (¬ SomeExhausts runs) × Appends (K.written out.old) (K.written out.new) (text_for a runs)) }
    ensures exhausted { result ≡ 7 → IsSomeAnd (run_asked (map string_bytes words.now)) (λ a. (runs : List FilesRun) × AreRunsFor (F.tells files.old) (F.held files.old) a runs × RunsMeetHeadline (client_asked a) runs × SomeExhausts runs × Appends (K.written out.old) (K.written out.new) (text_for a runs)) }
    ensures cut { result ≡ 5 → IsSomeAnd (run_asked (map string_bytes words.now)) (λ a. (runs : List FilesRun) × AreRunsFor (F.tells files.old) (F.held files.old) a runs × RunsMeetHeadline (client_asked a) runs × AppendsPrefix (K.written out.old) (K.written out.new) (text_for a runs)) }

    // A file is refused only where it is there and not accepted and each file before it is, and the message
    // names it. No later one was opened.
    ensures refused { result ≡ 3 → IsSomeAnd (files_asked (run_asked (map string_bytes words.now))) (λ r. (file : ℕ) × (refusal : Refusal) × Refuses (F.tells files.old) (F.held files.old) r file refusal × Opens r (file + 1) (F.faults files.old) (F.opened files.old) (F.opened files.new) × WritesMessage (K.written out.old) (K.written out.new) (K.faults out.old) (K.faults out.new) (refused_message file refusal)) }

    // A fault is told only where the count of faults rose, of the file that was opened or read then: it stood
    // still before the last opening. Each file before that one is there and accepted. No other answer comes
    // after a fault.
    ensures read_fault { result ≡ 4 → Rose (F.faults files.old) (F.faults files.new) }
    ensures unread { result ≡ 4 → IsSomeAnd (files_asked (run_asked (map string_bytes words.now))) (λ r. (file : ℕ) × Reaches (F.tells files.old) (F.held files.old) r file × Opens r (file + 1) (F.faults files.old) (F.opened files.old) (F.opened files.new) × WritesMessage (K.written out.old) (K.written out.new) (K.faults out.old) (K.faults out.new) (unread_line file)) }
    ensures read_calm { result ≢ 4 → F.faults files.new ≡ F.faults files.old }
    ensures write_fault { result ≡ 5 → Rose (K.faults out.old) (K.faults out.new) }
    ensures write_calm { (result ≡ 0) ⊎ (result ≡ 7) → K.faults out.new ≡ K.faults out.old }

    // Every file was opened, in order and once, where there is a report; none where the words are not served.
    ensures all_opened { (result ≡ 0) ⊎ (result ≡ 5) ⊎ (result ≡ 7) → IsSomeAnd (run_asked (map string_bytes words.now)) (λ a. OpensAll a (F.faults files.old) (F.opened files.old) (F.opened files.new)) }
    ensures none_opened { result ≡ 2 → F.opened files.new ≡ F.opened files.old }

    // The other statuses have their message, of which the sink has all or, after a fault, the first bytes.
    ensures statuses { (result ≡ 0) ⊎ (result ≡ 5) ⊎ (result ≡ 7) ⊎ ((stop : Stop) × (result ≡ status_of stop)) }
    ensures unserved { result ≡ 2 → WritesMessage (K.written out.old) (K.written out.new) (K.faults out.old) (K.faults out.new) USAGE_LINE }
    ensures no_memory { result ≡ 6 → WritesMessage (K.written out.old) (K.written out.new) (K.faults out.old) (K.faults out.new) NO_MEMORY_LINE }
    ensures some_opened { result ≡ 6 → IsSomeAnd (run_asked (map string_bytes words.now)) (λ a. OpensSome a (F.faults files.old) (F.opened files.old) (F.opened files.new)) }
    ensures held { (n : List ℕ) → F.held files.new n ≡ F.held files.old n }
{
    let answer = answer_run(rt, alloc, words, files, gate);
    finish(out, answer)
}
