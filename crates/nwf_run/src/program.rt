//! The top call of the program: `run` by threads, and all else by one.
ghost use Rattle.std.specs.Prelude.{◌≡◌, ◌≢◌, ◌↔◌, ◌⊎◌, ◌+◌, ℕ, List, None, map, length, IsSomeAnd, string_bytes};
ghost use Rattle.std.specs.Io.KnownBytes.{Appends};
ghost use Rattle.script_reader.specs.declared.causes.Refusal.{Refusal};
ghost use Rattle.whole_files.specs.Outside.{Rose, AppendsPrefix, WritesMessage};
ghost use Rattle.nwf_run.specs.Reading.{Opens, Reaches, Refuses};
ghost use Rattle.nwf_run.specs.Replaying.{AreRunsFor, OpensAll, OpensSome, RunsMeetHeadline, text_for};
ghost use Rattle.client_reports.specs.Runs.{FilesRun};
ghost use Rattle.command_line.specs.Lines.{NO_MEMORY_LINE, USAGE_LINE, unread_line};
ghost use Rattle.nwf_run.specs.Stops.{status_of, refused_message};
ghost use Rattle.client_reports.specs.Sweeps.{SomeExhausts};
ghost use Rattle.nwf_run.specs.CommandLine.{files_asked, nwf_asked, starts_run, client_asked};
ghost use Rattle.nwf_run.specs.declared.stops.Stop.{Stop};

use crate::replay::replay_main;
use crate::run::run_main;
use client_reports::Gate;
use std::alloc::Global;
use std::sync::Wait;
use std::thread::Threads;
use whole_files::{Files, Sink};

/// Whether the first word is `run`.
fn starts_run(words: &[String]) -> bool
    ensures { result ≡ starts_run (map string_bytes words.now) }
{
    match words {
        [command, ..] => command.as_str() == "run",
        [] => false,
    }
}

/// Serves what `run_main` does where the first word is `run`, and else what `replay_main` does.
pub fn nwf_main<R: Threads + Wait + Sync, F: Files, K: Sink, G: Gate + Sync>(
    rt: &R,
    alloc: Global,
    words: &[String],
    files: &mut F,
    out: &mut K,
    gate: &G,
) -> u8
    // The words alone decide whether they are served.
    ensures usage { (result ≡ 2) ↔ (nwf_asked (map string_bytes words.now) ≡ None) }

    // What is written is the text of the run that is asked for, which meets the headline: all of it or, after a
    // fault of the sink, its first bytes; the status says whether a call of it found no block left.
    ensures done { result ≡ 0 → IsSomeAnd (nwf_asked (map string_bytes words.now)) (λ a. (runs : List FilesRun) × AreRunsFor (F.tells files.old) (F.held files.old) a runs × RunsMeetHeadline (client_asked a) runs × (¬ SomeExhausts runs) × Appends (K.written out.old) (K.written out.new) (text_for a runs)) }
    ensures exhausted { result ≡ 7 → IsSomeAnd (nwf_asked (map string_bytes words.now)) (λ a. (runs : List FilesRun) × AreRunsFor (F.tells files.old) (F.held files.old) a runs × RunsMeetHeadline (client_asked a) runs × SomeExhausts runs × Appends (K.written out.old) (K.written out.new) (text_for a runs)) }
    ensures cut { result ≡ 5 → IsSomeAnd (nwf_asked (map string_bytes words.now)) (λ a. (runs : List FilesRun) × AreRunsFor (F.tells files.old) (F.held files.old) a runs × RunsMeetHeadline (client_asked a) runs × AppendsPrefix (K.written out.old) (K.written out.new) (text_for a runs)) }

    // A file is refused only where it is there and not accepted and each file before it is, and the message
    // names it. No later one was opened.
    ensures refused { result ≡ 3 → IsSomeAnd (files_asked (nwf_asked (map string_bytes words.now))) (λ r. (file : ℕ) × (refusal : Refusal) × Refuses (F.tells files.old) (F.held files.old) r file refusal × Opens r (file + 1) (F.faults files.old) (F.opened files.old) (F.opened files.new) × WritesMessage (K.written out.old) (K.written out.new) (K.faults out.old) (K.faults out.new) (refused_message file refusal)) }

    // A fault is told only where the count of faults rose, of the file that was opened or read then: it stood
    // still before the last opening. Each file before that one is there and accepted. No other answer comes
    // after a fault.
    ensures read_fault { result ≡ 4 → Rose (F.faults files.old) (F.faults files.new) }
    ensures unread { result ≡ 4 → IsSomeAnd (files_asked (nwf_asked (map string_bytes words.now))) (λ r. (file : ℕ) × Reaches (F.tells files.old) (F.held files.old) r file × Opens r (file + 1) (F.faults files.old) (F.opened files.old) (F.opened files.new) × WritesMessage (K.written out.old) (K.written out.new) (K.faults out.old) (K.faults out.new) (unread_line file)) }
    ensures read_calm { result ≢ 4 → F.faults files.new ≡ F.faults files.old }
    ensures write_fault { result ≡ 5 → Rose (K.faults out.old) (K.faults out.new) }
    ensures write_calm { (result ≡ 0) ⊎ (result ≡ 7) → K.faults out.new ≡ K.faults out.old }

    // Every file was opened, in order and once, where there is a report; none where the words are not served.
    ensures all_opened { (result ≡ 0) ⊎ (result ≡ 5) ⊎ (result ≡ 7) → IsSomeAnd (nwf_asked (map string_bytes words.now)) (λ a. OpensAll a (F.faults files.old) (F.opened files.old) (F.opened files.new)) }
    ensures none_opened { result ≡ 2 → F.opened files.new ≡ F.opened files.old }

    // The other statuses have their message, of which the sink has all or, after a fault, the first bytes.
    ensures statuses { (result ≡ 0) ⊎ (result ≡ 5) ⊎ (result ≡ 7) ⊎ ((stop : Stop) × (result ≡ status_of stop)) }
    ensures unserved { result ≡ 2 → WritesMessage (K.written out.old) (K.written out.new) (K.faults out.old) (K.faults out.new) USAGE_LINE }
    ensures no_memory { result ≡ 6 → WritesMessage (K.written out.old) (K.written out.new) (K.faults out.old) (K.faults out.new) NO_MEMORY_LINE }
    ensures some_opened { result ≡ 6 → IsSomeAnd (nwf_asked (map string_bytes words.now)) (λ a. OpensSome a (F.faults files.old) (F.opened files.old) (F.opened files.new)) }
    ensures held { (n : List ℕ) → F.held files.new n ≡ F.held files.old n }
{
    if starts_run(words) {
        run_main(rt, alloc, words, files, out, gate)
    } else {
        replay_main(alloc, words, files, out)
    }
}
