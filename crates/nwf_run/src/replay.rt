//! `replay`, `sweep` and `load`: runs command files by a schedule and writes the report, or with a seat that stops and
//! writes a line for each stop, or generated files in rounds and writes the summary.
ghost use Rattle.std.specs.Prelude.{◌≡◌, ◌≢◌, ◌↔◌, ◌⊎◌, ◌≤◌, ◌+◌, ℕ, List, None, Some, map, length, IfOk, IfErr, IsSomeAnd, IsErrOf, IsTrue, string_bytes};
ghost use Rattle.std.specs.Io.KnownBytes.{Appends};
ghost use Rattle.script_reader.specs.declared.causes.Refusal.{Refusal};
ghost use Rattle.whole_files.specs.Outside.{Rose, AppendsPrefix, WritesMessage};
ghost use Rattle.nwf_run.specs.Answers.{GivesDue, IsDue};
ghost use Rattle.nwf_run.specs.Reading.{FaultsAsTold, Opens, OpensUntil, Reaches, Refuses, StopsReading};
ghost use Rattle.nwf_run.specs.Replaying.{Ends, AreRunsFor, Makes, OpensAll, OpensFor, OpensSome, Reports, RunsMeetHeadline, StopsFor, text_for};
ghost use Rattle.client_reports.specs.Runs.{FilesRun};
ghost use Rattle.nwf_run.specs.Said.{said, said_sweep};
ghost use Rattle.command_line.specs.Lines.{NO_MEMORY_LINE, USAGE_LINE, unread_line};
ghost use Rattle.nwf_run.specs.Stops.{status_of, message_of, refused_message};
ghost use Rattle.client_reports.specs.Sweeps.{SomeExhausts};
ghost use Rattle.nwf_run.specs.CommandLine.{asked_words, files_asked, client_asked};
ghost use Rattle.nwf_run.specs.CommandLine.Asked.{a_replay, a_sweep};
ghost use Rattle.nwf_run.specs.declared.stops.Stop.{Stop};

use crate::load_words::load_words;
use crate::scripts::{read_command_files, read_scripts};
use crate::stops::Stop;
use crate::sweep_words::{SweepWords, sweep_words};
use crate::words::{ReplayWords, replay_words};
use client_reports::{Replayed, make_lines, make_report, make_summary};
use std::alloc::Global;
use whole_files::{Files, Sink, write_all};

/// Reads the files and makes the report of their run.
fn replay_files<F: Files>(
    alloc: Global,
    words: &ReplayWords<'_>,
    files: &mut F,
) -> Result<Replayed, Stop>
    requires cap { (1 ≤ words.now.cap) × (words.now.cap ≤ 65536) }
    requires limit { words.now.limit ≤ 255 }
    requires some { 1 ≤ length words.now.files.now }
    requires few { length words.now.files.now ≤ 8 }
    ensures text { IfOk result (λ made. Makes (F.tells files.old) (F.held files.old) (a_replay (said words.now)) made.text.items made.exhausted) }
    ensures stops { IfErr result (StopsReading (F.tells files.old) (F.held files.old) (said words.now)) }
    ensures faults { FaultsAsTold (F.faults files.old) (F.faults files.new) result }
    ensures opened { OpensUntil (said words.now) (F.faults files.old) (F.opened files.old) (F.opened files.new) result }
    ensures held { (n : List ℕ) → F.held files.new n ≡ F.held files.old n }
{
    let scripts = read_scripts(alloc, words, files)?;
    let made = make_report(alloc, words.client, words.cap, words.limit, scripts)?;
    Ok(made)
}

/// Reads the files and makes the lines of a sweep over them.
fn sweep_files<F: Files>(
    alloc: Global,
    words: &SweepWords<'_>,
    files: &mut F,
) -> Result<Replayed, Stop>
    requires cap { (1 ≤ words.now.of_files.cap) × (words.now.of_files.cap ≤ 65536) }
    requires limit { words.now.of_files.limit ≤ 255 }
    requires most { words.now.most ≤ 255 }
    requires some { 1 ≤ length words.now.of_files.files.now }
    requires few { length words.now.of_files.files.now ≤ 8 }
    ensures text { IfOk result (λ made. Makes (F.tells files.old) (F.held files.old) (a_sweep (said_sweep words.now)) made.text.items made.exhausted) }
    ensures stops { IfErr result (StopsReading (F.tells files.old) (F.held files.old) (said_sweep words.now).of_files) }
    ensures faults { FaultsAsTold (F.faults files.old) (F.faults files.new) result }
    ensures opened { OpensUntil (said_sweep words.now).of_files (F.faults files.old) (F.opened files.old) (F.opened files.new) result }
    ensures held { (n : List ℕ) → F.held files.new n ≡ F.held files.old n }
{
    let of_files = &words.of_files;
    let commands = read_command_files(alloc, of_files, files)?;
    let made = make_lines(
        alloc,
        of_files.client,
        of_files.cap,
        of_files.limit,
        words.most,
        commands,
    )?;
    Ok(made)
}

/// What the words ask for, or why there is none.
fn answer<F: Files>(alloc: Global, words: &[String], files: &mut F) -> Result<Replayed, Stop>
    ensures text { IfOk result (λ made. IsSomeAnd (asked_words (map string_bytes words.now)) (λ a. Makes (F.tells files.old) (F.held files.old) a made.text.items made.exhausted)) }
    ensures stops { IfErr result (StopsFor (F.tells files.old) (F.held files.old) (asked_words (map string_bytes words.now))) }
    ensures faults { FaultsAsTold (F.faults files.old) (F.faults files.new) result }
    ensures opened { OpensFor (asked_words (map string_bytes words.now)) (F.faults files.old) (F.opened files.old) (F.opened files.new) result }
    ensures held { (n : List ℕ) → F.held files.new n ≡ F.held files.old n }
{
    if let Some(replay) = replay_words(words) {
        return replay_files(alloc, &replay, files);
    }
    if let Some(sweep) = sweep_words(words) {
        return sweep_files(alloc, &sweep, files);
    }
    match load_words(words) {
        Some(load) => Ok(make_summary(alloc, load)?),
        None => Err(Stop::Usage),
    }
}

/// Writes a report, and answers the status.
fn report<K: Sink>(out: &mut K, made: &Replayed) -> u8
    ensures { Reports (K.written out.old) (K.written out.new) (K.faults out.old) (K.faults out.new) result made.now.text.items made.now.exhausted }
{
    match write_all(out, &made.text) {
        Ok(()) if made.exhausted => 7,
        Ok(()) => 0,
        Err(_) => 5,
    }
}

/// Writes the message that says why there is no report, and answers the status, which stays where the
/// message can't be written.
fn tell<K: Sink>(out: &mut K, stop: Stop) -> u8
    ensures status { result ≡ status_of stop }
    ensures writes { WritesMessage (K.written out.old) (K.written out.new) (K.faults out.old) (K.faults out.new) (message_of stop) }
{
    let _ = write_all(out, stop.message().as_str().as_bytes());
    stop.status()
}

/// Ends a call that has a report to write, or a reason to stop.
pub(crate) fn finish<K: Sink>(out: &mut K, answer: Result<Replayed, Stop>) -> u8
    ensures { Ends (K.written out.old) (K.written out.new) (K.faults out.old) (K.faults out.new) result answer }
{
    match answer {
        Ok(made) => report(out, &made),
        Err(stop) => tell(out, stop),
    }
}

/// Serves the words `replay CLIENT CAP LIMIT SCHEDULE` and one to eight FILE words: reads the schedule and
/// the command files, runs them, one seat for each file, step by step as the schedule says, and writes the
/// report.
///
/// The status is 0 where the report was written, 2 where the words are others, 3 where a file isn't
/// accepted, 4 where one couldn't be read, 5 where the report couldn't be written, 6 where there was no
/// memory, and 7 where the report was written and a call of it found no block left. With 2, 3, 4 and 6 a
/// line that says so is written in place of a report.
pub fn replay_main<F: Files, K: Sink>(
    alloc: Global,
    words: &[String],
    files: &mut F,
    out: &mut K,
) -> u8
    // The words alone decide whether they are served.
    ensures usage { (result ≡ 2) ↔ (asked_words (map string_bytes words.now) ≡ None) }

    // What is written for accepted files is the report of their run, which meets the headline: all of it or,
    // after a fault of the sink, its first bytes; the status says whether a call of it found no block left.
    ensures done { result ≡ 0 → IsSomeAnd (asked_words (map string_bytes words.now)) (λ a. (runs : List FilesRun) × AreRunsFor (F.tells files.old) (F.held files.old) a runs × RunsMeetHeadline (client_asked a) runs × (¬ SomeExhausts runs) × Appends (K.written out.old) (K.written out.new) (text_for a runs)) }
    ensures exhausted { result ≡ 7 → IsSomeAnd (asked_words (map string_bytes words.now)) (λ a. (runs : List FilesRun) × AreRunsFor (F.tells files.old) (F.held files.old) a runs × RunsMeetHeadline (client_asked a) runs × SomeExhausts runs × Appends (K.written out.old) (K.written out.new) (text_for a runs)) }
    ensures cut { result ≡ 5 → IsSomeAnd (asked_words (map string_bytes words.now)) (λ a. (runs : List FilesRun) × AreRunsFor (F.tells files.old) (F.held files.old) a runs × RunsMeetHeadline (client_asked a) runs × AppendsPrefix (K.written out.old) (K.written out.new) (text_for a runs)) }

    // Where bytes are told, the words and the held bytes alone decide the status and the text, in whatever pieces
    // files and sink pass them on, but for a fault or want of memory.
    ensures due { IsTrue (F.tells files.old) → (due : ℕ) (text : List ℕ) → IsDue (F.held files.old) (asked_words (map string_bytes words.now)) due text → GivesDue due text result (K.written out.old) (K.written out.new) (K.faults out.old) (K.faults out.new) }

    // A file is refused only where it is there and not accepted and each file before it is, and the message
    // names it. No later one was opened.
    ensures refused { result ≡ 3 → IsSomeAnd (files_asked (asked_words (map string_bytes words.now))) (λ r. (file : ℕ) × (refusal : Refusal) × Refuses (F.tells files.old) (F.held files.old) r file refusal × Opens r (file + 1) (F.faults files.old) (F.opened files.old) (F.opened files.new) × WritesMessage (K.written out.old) (K.written out.new) (K.faults out.old) (K.faults out.new) (refused_message file refusal)) }

    // A fault is told only where the count of faults rose, of the file that was opened or read then: it stood
    // still before the last opening. Each file before that one is there and accepted. No other answer comes
    // after a fault.
    ensures read_fault { result ≡ 4 → Rose (F.faults files.old) (F.faults files.new) }
    ensures unread { result ≡ 4 → IsSomeAnd (files_asked (asked_words (map string_bytes words.now))) (λ r. (file : ℕ) × Reaches (F.tells files.old) (F.held files.old) r file × Opens r (file + 1) (F.faults files.old) (F.opened files.old) (F.opened files.new) × WritesMessage (K.written out.old) (K.written out.new) (K.faults out.old) (K.faults out.new) (unread_line file)) }
    ensures read_calm { result ≢ 4 → F.faults files.new ≡ F.faults files.old }
    ensures write_fault { result ≡ 5 → Rose (K.faults out.old) (K.faults out.new) }
    ensures write_calm { (result ≡ 0) ⊎ (result ≡ 7) → K.faults out.new ≡ K.faults out.old }

    // Every file was opened, in order and once, where there is a report; none where the words are not served.
    ensures all_opened { (result ≡ 0) ⊎ (result ≡ 5) ⊎ (result ≡ 7) → IsSomeAnd (asked_words (map string_bytes words.now)) (λ a. OpensAll a (F.faults files.old) (F.opened files.old) (F.opened files.new)) }
    ensures none_opened { result ≡ 2 → F.opened files.new ≡ F.opened files.old }

    // The other statuses have their message, of which the sink has all or, after a fault, the first bytes.
    ensures statuses { (result ≡ 0) ⊎ (result ≡ 5) ⊎ (result ≡ 7) ⊎ ((stop : Stop) × (result ≡ status_of stop)) }
    ensures unserved { result ≡ 2 → WritesMessage (K.written out.old) (K.written out.new) (K.faults out.old) (K.faults out.new) USAGE_LINE }
    ensures no_memory { result ≡ 6 → WritesMessage (K.written out.old) (K.written out.new) (K.faults out.old) (K.faults out.new) NO_MEMORY_LINE }
    ensures some_opened { result ≡ 6 → IsSomeAnd (asked_words (map string_bytes words.now)) (λ a. OpensSome a (F.faults files.old) (F.opened files.old) (F.opened files.new)) }
    ensures held { (n : List ℕ) → F.held files.new n ≡ F.held files.old n }
{
    let answer = answer(alloc, words, files);
    finish(out, answer)
}
