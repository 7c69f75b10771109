//! Why bytes have no report.
ghost use Rattle.std.specs.Prelude.{◌≡◌};
ghost use Rattle.client_reports.specs.declared.no_report.NoReport.TheVariants as no;

use lin_report::NoMemory;
use script_reader::Refusal;

/// Why bytes have no report. File 0 is the schedule, and file k the k-th command file.
#[derive(Clone, Copy, Debug, PartialEq, Eq)]
pub enum NoReport {
    /// The grammar refuses a file.
    Refused { file: u32, refusal: Refusal },
    /// There was no memory.
    NoMemory,
}

impl From<NoMemory> for NoReport {
    ghost from_gives = { λ _ why. why ≡ no.NoMemory };

    fn from(_error: NoMemory) -> NoReport {
        NoReport::NoMemory
    }
}
