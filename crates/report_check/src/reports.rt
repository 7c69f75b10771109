//! A whole report: the lines of its calls, and its summary line.
ghost use Rattle.std.specs.Prelude.{◌≡◌, IfOk, IfErr};
ghost use Rattle.lin_report.specs.Object.{object_of};
ghost use Rattle.lin_report.specs.Calls.{Report, report_of};
ghost use Rattle.report_check.specs.Judging.{CanJudge};
ghost use Rattle.report_check.specs.declared.reports.ReportFault.TheVariants.{NoMemory};
ghost use Rattle.report_check.specs.Reports.{IsTextOf, IsNoReport, IsReadAs};

use crate::beginnings::read_calls;
use crate::parting::{ReadReport, part};
use crate::summaries::read_summary;
use lin_report::{Client, NoMemory};
use std::alloc::Global;

/// The most bytes of a report.
const MAX_BYTES: usize = 33_554_048;

/// Why bytes are no report.
#[derive(Clone, Copy, Debug, PartialEq, Eq)]
pub enum ReportFault {
    /// They are more than 33,554,048.
    TooLong,
    /// The first line at fault, counted from 1.
    AtFault(u32),
    /// Want of memory. Nothing else is merged with it.
    NoMemory,
}

impl From<NoMemory> for ReportFault {
    ghost from_gives = { λ _ fault. fault ≡ NoMemory };

    fn from(_failed: NoMemory) -> ReportFault {
        ReportFault::NoMemory
    }
}

/// The report of which the bytes are the text, or the first line at fault.
pub fn read_report(alloc: Global, bytes: &[u8], client: Client) -> Result<ReadReport, ReportFault>
    ensures read { IfOk result (λ r. IsTextOf client bytes.now (report_of r.receipts.items r.pending.items)) }
    ensures judged { IfOk result (λ r. CanJudge (object_of client) (report_of r.receipts.items r.pending.items)) }
    ensures refused { IfErr result (λ fault. IsNoReport client bytes.now fault) }

    // The text of a report is read back as that report.
    ensures back { (report : Report) → IsTextOf client bytes.now report → IsReadAs result report }
{
    if bytes.len() > MAX_BYTES {
        return Err(ReportFault::TooLong);
    }
    let begun = read_calls(alloc, client, bytes)?;
    let report = part(alloc, &begun.calls)?;
    let lines = begun.calls.len();
    let drawn = lines + report.receipts.len();
    match read_summary(alloc, &report, &begun.ticks, drawn, begun.rest)? {
        None => Err(ReportFault::AtFault(lines as u32 + 1)),
        Some((_, [])) => Ok(report),
        Some(_) => Err(ReportFault::AtFault(lines as u32 + 2)),
    }
}
