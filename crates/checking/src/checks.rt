//! `check`: reads a report and an order of its calls, judges the order, and writes the verdict.
ghost use Rattle.std.specs.Prelude.{◌≡◌, ◌≢◌, ◌↔◌, ◌⊎◌, ℕ, List, None, map, IfOk, IfErr, IsSomeAnd, string_bytes};
ghost use Rattle.std.specs.Io.KnownBytes.{Appends};
ghost use Rattle.whole_files.specs.Outside.{Rose, AppendsPrefix, WritesMessage};
ghost use Rattle.report_check.specs.Sayings.{verdict_text};
ghost use Rattle.report_check.specs.declared.verdicts.Verdict.{Verdict};
ghost use Rattle.checking.specs.Checking.{IsVerdictOn, OpensFor, StopsFor, verdict_status};
ghost use Rattle.checking.specs.Reading.{FaultsAsTold, Opens, OpensUntil, Reaches, Refuses, StopsReading};
ghost use Rattle.command_line.specs.Lines.{NO_MEMORY_LINE, USAGE_LINE};
ghost use Rattle.checking.specs.Stops.{status_of, file_of, refused_message, unread_message};
ghost use Rattle.checking.specs.Words.{check_words, said};
ghost use Rattle.checking.specs.declared.checked.CheckedFile.{CheckedFile};
ghost use Rattle.checking.specs.declared.checked.CheckedFile.TheVariants as file;
ghost use Rattle.checking.specs.declared.checked.NotAccepted.{NotAccepted};
ghost use Rattle.checking.specs.declared.stops.Stop.{Stop};

use crate::reading::{names_in, report_in};
use crate::stops::Stop;
use crate::telling::finish;
use crate::words::{CheckWords, check_words};
use report_check::{Verdict, judge};
use std::alloc::Global;
use whole_files::{Files, Sink};

/// Reads the files of a check, and judges the order.
fn check_files<F: Files>(
    alloc: Global,
    check: &CheckWords<'_>,
    files: &mut F,
) -> Result<Verdict, Stop>
    ensures verdict { IfOk result (IsVerdictOn (F.tells files.old) (F.held files.old) (said check.now)) }
    ensures stops { IfErr result (StopsReading (F.tells files.old) (F.held files.old) (said check.now)) }
    ensures faults { FaultsAsTold (F.faults files.old) (F.faults files.new) result }
    ensures opened { OpensUntil (said check.now) (F.faults files.old) (F.opened files.old) (F.opened files.new) result }
    ensures held { (n : List ℕ) → F.held files.new n ≡ F.held files.old n }
{
    let report = report_in(alloc, check, files)?;
    let names = names_in(alloc, check, files)?;
    let verdict = judge(
        alloc,
        check.client,
        &report.receipts,
        &report.pending,
        &names,
    )?;
    Ok(verdict)
}

/// The verdict that the words ask for, or why there is none.
fn answer<F: Files>(alloc: Global, words: &[String], files: &mut F) -> Result<Verdict, Stop>
    ensures verdict { IfOk result (λ it. IsSomeAnd (check_words (map string_bytes words.now)) (λ check. IsVerdictOn (F.tells files.old) (F.held files.old) check it)) }
    ensures stops { IfErr result (StopsFor (F.tells files.old) (F.held files.old) (check_words (map string_bytes words.now))) }
    ensures faults { FaultsAsTold (F.faults files.old) (F.faults files.new) result }
    ensures opened { OpensFor (check_words (map string_bytes words.now)) (F.faults files.old) (F.opened files.old) (F.opened files.new) result }
    ensures held { (n : List ℕ) → F.held files.new n ≡ F.held files.old n }
{
    match check_words(words) {
        Some(check) => check_files(alloc, &check, files),
        None => Err(Stop::Usage),
    }
}

/// Serves the words `check CLIENT REPORT ORDER`: reads the report and the order of its calls, judges whether the order is
/// a legal arrangement of the report that keeps its ticks, and writes the verdict.
///
/// The status is 0 where the order is legal, 8 where it isn't, 2 where the words are others, 3 where a file isn't
/// accepted, 4 where one couldn't be read, 5 where the verdict couldn't be written, and 6 where there was no memory. With
/// 2, 3, 4 and 6 a line that says so is written in place of a verdict.
pub fn check_main<F: Files, K: Sink>(
    alloc: Global,
    words: &[String],
    files: &mut F,
    out: &mut K,
) -> u8
    // The words alone decide whether they are served.
    ensures usage { (result ≡ 2) ↔ (check_words (map string_bytes words.now) ≡ None) }

    // What is written for accepted files is the verdict on the order: all of it, with its status, or, after a fault of the
    // sink, its first bytes.
    ensures judged { (result ≡ 0) ⊎ (result ≡ 8) → IsSomeAnd (check_words (map string_bytes words.now)) (λ check. (it : Verdict) × IsVerdictOn (F.tells files.old) (F.held files.old) check it × (result ≡ verdict_status it) × Appends (K.written out.old) (K.written out.new) (verdict_text it)) }
    ensures cut { result ≡ 5 → IsSomeAnd (check_words (map string_bytes words.now)) (λ check. (it : Verdict) × IsVerdictOn (F.tells files.old) (F.held files.old) check it × AppendsPrefix (K.written out.old) (K.written out.new) (verdict_text it)) }

    // A file is refused only where it is there and not accepted and the report is accepted if it is the order, and the
    // message names it. No later one was opened.
    ensures refused { result ≡ 3 → IsSomeAnd (check_words (map string_bytes words.now)) (λ check. (why : NotAccepted) × Refuses (F.tells files.old) (F.held files.old) check why × Opens check (file_of why) (F.faults files.old) (F.opened files.old) (F.opened files.new) × WritesMessage (K.written out.old) (K.written out.new) (K.faults out.old) (K.faults out.new) (refused_message why)) }

    // A fault is told only where the count of faults rose, of the file that was opened or read then. No other answer comes
    // after a fault.
    ensures read_fault { result ≡ 4 → Rose (F.faults files.old) (F.faults files.new) }
    ensures unread { result ≡ 4 → IsSomeAnd (check_words (map string_bytes words.now)) (λ check. (unread : CheckedFile) × Reaches (F.tells files.old) (F.held files.old) check unread × Opens check unread (F.faults files.old) (F.opened files.old) (F.opened files.new) × WritesMessage (K.written out.old) (K.written out.new) (K.faults out.old) (K.faults out.new) (unread_message unread)) }
    ensures read_calm { result ≢ 4 → F.faults files.new ≡ F.faults files.old }
    ensures write_fault { result ≡ 5 → Rose (K.faults out.old) (K.faults out.new) }
    ensures write_calm { (result ≡ 0) ⊎ (result ≡ 8) → K.faults out.new ≡ K.faults out.old }

    // Both files were opened, in order and once, where there is a verdict; none where the words are not served.
    ensures both_opened { (result ≡ 0) ⊎ (result ≡ 5) ⊎ (result ≡ 8) → IsSomeAnd (check_words (map string_bytes words.now)) (λ check. Opens check file.Order (F.faults files.old) (F.opened files.old) (F.opened files.new)) }
    ensures none_opened { result ≡ 2 → F.opened files.new ≡ F.opened files.old }

    // The other statuses have their message, of which the sink has all or, after a fault, the first bytes.
    ensures statuses { (result ≡ 0) ⊎ (result ≡ 5) ⊎ (result ≡ 8) ⊎ ((stop : Stop) × (result ≡ status_of stop)) }
    ensures unserved { result ≡ 2 → WritesMessage (K.written out.old) (K.written out.new) (K.faults out.old) (K.faults out.new) USAGE_LINE }
    ensures no_memory { result ≡ 6 → WritesMessage (K.written out.old) (K.written out.new) (K.faults out.old) (K.faults out.new) NO_MEMORY_LINE }
    ensures some_opened { result ≡ 6 → IsSomeAnd (check_words (map string_bytes words.now)) (λ check. (last : CheckedFile) × Opens check last (F.faults files.old) (F.opened files.old) (F.opened files.new)) }
    ensures held { (n : List ℕ) → F.held files.new n ≡ F.held files.old n }
{
    let answer = answer(alloc, words, files);
    finish(out, answer)
}
