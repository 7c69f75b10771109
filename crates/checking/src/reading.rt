//! Reads the two files of a check, each judged before the next one is opened.
ghost use Rattle.std.specs.Prelude.{◌≡◌, ◌≤◌, ◌+◌, ◌∷◌, ◌⊎◌, ℕ, List, IsTrue, IfOk, IfErr, IsSomeAnd, All, take, vec_len};
ghost use Rattle.lin_report.specs.Object.{object_of};
ghost use Rattle.lin_report.specs.Calls.{report_of};
ghost use Rattle.report_check.specs.Judging.{CanJudge};
ghost use Rattle.report_check.specs.Orders.{NAME_LIMIT, IsName};
ghost use Rattle.checking.specs.Reading.{IsReportThere, AreNamesThere, StopsAtReport, StopsAtOrder, FaultsAsTold};
ghost use Rattle.checking.specs.Words.{said};
ghost use Rattle.checking.specs.declared.stops.Stop.TheVariants as stop;

use crate::checked::CheckedFile;
use crate::stops::Stop;
use crate::words::CheckWords;
use report_check::{Named, ReadReport, read_order, read_report};
use std::alloc::Global;
use whole_files::{Files, ReadError, read_file};

/// The most bytes of a report.
const MAX_REPORT: u32 = 33_554_048;

/// The most bytes of an order.
const MAX_ORDER: u32 = 4_194_304;

/// The bytes of a file, up to the one after the limit.
fn read_bytes<F: Files>(
    alloc: Global,
    files: &mut F,
    name: &str,
    limit: u32,
    file: CheckedFile,
) -> Result<Vec<u8>, Stop>
    ensures bytes { IfOk result (λ bytes. IsTrue (F.tells files.old) → IsSomeAnd (F.held files.old name.now) (λ held. bytes.items ≡ take (limit + 1) held)) }
    ensures stop { IfErr result (λ why. (why ≡ stop.ReadFault file) ⊎ (why ≡ stop.NoMemory)) }
    ensures faults { FaultsAsTold (F.faults files.old) (F.faults files.new) result }
    ensures tells { F.tells files.new ≡ F.tells files.old }
    ensures held { (n : List ℕ) → F.held files.new n ≡ F.held files.old n }
    ensures opened { F.opened files.new ≡ (name.now, F.faults files.old) ∷ F.opened files.old }
{
    match read_file(alloc, files, name, limit) {
        Ok(bytes) => Ok(bytes),
        Err(ReadError::Fault) => Err(Stop::ReadFault(file)),
        Err(ReadError::NoMemory) => Err(Stop::NoMemory),
    }
}

/// The report under its name.
pub(crate) fn report_in<F: Files>(
    alloc: Global,
    check: &CheckWords<'_>,
    files: &mut F,
) -> Result<ReadReport, Stop>
    ensures there { IfOk result (λ r. IsReportThere (F.tells files.old) (F.held files.old) (said check.now) (report_of r.receipts.items r.pending.items)) }
    ensures judged { IfOk result (λ r. CanJudge (object_of check.now.client) (report_of r.receipts.items r.pending.items)) }
    ensures stops { IfErr result (StopsAtReport (F.tells files.old) (F.held files.old) (said check.now)) }
    ensures faults { FaultsAsTold (F.faults files.old) (F.faults files.new) result }
    ensures tells { F.tells files.new ≡ F.tells files.old }
    ensures held { (n : List ℕ) → F.held files.new n ≡ F.held files.old n }
    ensures opened { F.opened files.new ≡ (check.now.report.now, F.faults files.old) ∷ F.opened files.old }
{
    let bytes = read_bytes(alloc, files, check.report, MAX_REPORT, CheckedFile::Report)?;
    match read_report(alloc, &bytes, check.client) {
        Ok(report) => Ok(report),
        Err(fault) => Err(Stop::from(fault)),
    }
}

/// The names of the order under its name.
pub(crate) fn names_in<F: Files>(
    alloc: Global,
    check: &CheckWords<'_>,
    files: &mut F,
) -> Result<Vec<Named>, Stop>
    ensures there { IfOk result (λ names. AreNamesThere (F.tells files.old) (F.held files.old) (said check.now) names.items) }
    ensures names { IfOk result (λ names. All IsName names.items) }
    ensures count { IfOk result (λ names. vec_len names ≤ NAME_LIMIT) }
    ensures stops { IfErr result (StopsAtOrder (F.tells files.old) (F.held files.old) (said check.now)) }
    ensures faults { FaultsAsTold (F.faults files.old) (F.faults files.new) result }
    ensures tells { F.tells files.new ≡ F.tells files.old }
    ensures held { (n : List ℕ) → F.held files.new n ≡ F.held files.old n }
    ensures opened { F.opened files.new ≡ (check.now.order.now, F.faults files.old) ∷ F.opened files.old }
{
    let bytes = read_bytes(alloc, files, check.order, MAX_ORDER, CheckedFile::Order)?;
    match read_order(alloc, &bytes) {
        Ok(names) => Ok(names),
        Err(fault) => Err(Stop::from(fault)),
    }
}
