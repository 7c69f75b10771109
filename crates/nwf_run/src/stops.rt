//! Why a top call ends without a report, and what it says then.
ghost use Rattle.nwf_run.specs.Stops.{stop_for, status_of, message_of};
ghost use Rattle.std.specs.Prelude.{◌≡◌};
ghost use Rattle.nwf_run.specs.declared.stops.Stop.TheVariants as variant;

use client_reports::NoReport;
use command_line::{Message, no_memory_line, refused_line, unread_line, usage_line};
use lin_report::NoMemory;
use script_reader::{Refusal, cause_number};

/// Why a top call ends without a report. File 0 is the schedule, and file k the k-th command file.
#[derive(Clone, Copy, Debug, PartialEq, Eq)]
pub enum Stop {
    /// The words are none that the call serves.
    Usage,
    /// The grammar refuses a file.
    Refused { file: u32, refusal: Refusal },
    /// A file couldn't be read.
    ReadFault { file: u32 },
    /// There was no memory.
    NoMemory,
}

impl Stop {
    /// The status with which the call ends.
    pub fn status(self) -> u8
        ensures { result ≡ status_of self }
    {
        match self {
            Stop::Usage => 2,
            Stop::Refused { .. } => 3,
            Stop::ReadFault { .. } => 4,
            Stop::NoMemory => 6,
        }
    }

    /// The line that is written in place of a report.
    pub fn message(self) -> Message
        ensures { result.bytes ≡ message_of self }
    {
        match self {
            Stop::Usage => usage_line(),
            Stop::Refused { file, refusal } => {
                refused_line(file, refusal.line, cause_number(refusal.cause))
            }
            Stop::ReadFault { file } => unread_line(file),
            Stop::NoMemory => no_memory_line(),
        }
    }
}

impl From<NoReport> for Stop {
    ghost from_gives = { λ why stop. stop ≡ stop_for why };

    fn from(why: NoReport) -> Stop {
        match why {
            NoReport::Refused { file, refusal } => Stop::Refused { file, refusal },
            NoReport::NoMemory => Stop::NoMemory,
        }
    }
}

impl From<NoMemory> for Stop {
    ghost from_gives = { λ _ stop. stop ≡ variant.NoMemory };

    fn from(_error: NoMemory) -> Stop {
        Stop::NoMemory
    }
}
