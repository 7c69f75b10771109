//! The files of a check, and why one of them is not accepted.
ghost use Rattle.std.specs.Prelude.{◌≡◌};
ghost use Rattle.checking.specs.Stops.{file_number, line_of, cause_of, file_of};

use script_reader::{Cause, Refusal, cause_number};

/// A file of a check.
#[derive(Clone, Copy, Debug, PartialEq, Eq)]
pub enum CheckedFile {
    /// The report, which is read first.
    Report,
    /// The order of its calls.
    Order,
}

impl CheckedFile {
    /// The number by which messages name the file.
    pub fn number(self) -> u32
        ensures { result ≡ file_number self }
    {
        match self {
            CheckedFile::Report => 0,
            CheckedFile::Order => 1,
        }
    }
}

/// Why a file of a check is not accepted.
#[derive(Clone, Copy, Debug, PartialEq, Eq)]
pub enum NotAccepted {
    /// The report is too long.
    LongReport,
    /// This line of the report, counted from 1, is the first at fault.
    ReportLine(u32),
    /// The grammar of orders refuses the order.
    Order(Refusal),
}

/// The cause of a line of a report.
const LINE_AT_FAULT: u32 = 7;

impl NotAccepted {
    /// The file that is not accepted.
    pub fn file(self) -> CheckedFile
        ensures { result ≡ file_of self }
    {
        match self {
            NotAccepted::LongReport | NotAccepted::ReportLine(_) => CheckedFile::Report,
            NotAccepted::Order(_) => CheckedFile::Order,
        }
    }

    /// The line at fault, or 0 for the whole file.
    pub fn line(self) -> u32
        ensures { result ≡ line_of self }
    {
        match self {
            NotAccepted::LongReport => 0,
            NotAccepted::ReportLine(line) => line,
            NotAccepted::Order(refusal) => refusal.line,
        }
    }

    /// The number of the cause.
    pub fn cause(self) -> u32
        ensures { result ≡ cause_of self }
    {
        match self {
            NotAccepted::LongReport => cause_number(Cause::FileTooLong),
            NotAccepted::ReportLine(_) => LINE_AT_FAULT,
            NotAccepted::Order(refusal) => cause_number(refusal.cause),
        }
    }
}
