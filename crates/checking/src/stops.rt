//! Why a check ends without a verdict, and what is written then.
ghost use Rattle.std.specs.Prelude.{◌≡◌};
ghost use Rattle.checking.specs.Stops.{status_of, message_of, stop_for_report, stop_for_order};
ghost use Rattle.checking.specs.declared.stops.Stop.TheVariants as stop;

use crate::checked::{CheckedFile, NotAccepted};
use command_line::{Message, no_memory_line, refused_line, unread_line, usage_line};
use lin_report::NoMemory;
use report_check::ReportFault;
use script_reader::ScriptFault;

/// Why a check ends without a verdict.
#[derive(Clone, Copy, Debug, PartialEq, Eq)]
pub enum Stop {
    /// The words are none that the call serves.
    Usage,
    /// A file is not accepted.
    Refused(NotAccepted),
    /// A file couldn't be read.
    ReadFault(CheckedFile),
    /// There was no memory.
    NoMemory,
}

impl Stop {
    /// The status with which the call ends.
    pub fn status(self) -> u8
        ensures { result ≡ status_of self }
    {
        match self {
            Stop::Usage => 2,
            Stop::Refused(_) => 3,
            Stop::ReadFault(_) => 4,
            Stop::NoMemory => 6,
        }
    }

    /// The line that is written in place of a verdict.
    pub fn message(self) -> Message
        ensures { result.bytes ≡ message_of self }
    {
        match self {
            Stop::Usage => usage_line(),
            Stop::Refused(why) => refused_line(why.file().number(), why.line(), why.cause()),
            Stop::ReadFault(file) => unread_line(file.number()),
            Stop::NoMemory => no_memory_line(),
        }
    }
}

impl From<NoMemory> for Stop {
    ghost from_gives = { λ _ why. why ≡ stop.NoMemory };

    fn from(_error: NoMemory) -> Stop {
        Stop::NoMemory
    }
}

impl From<ReportFault> for Stop {
    ghost from_gives = { λ fault why. why ≡ stop_for_report fault };

    fn from(fault: ReportFault) -> Stop {
        match fault {
            ReportFault::TooLong => Stop::Refused(NotAccepted::LongReport),
            ReportFault::AtFault(line) => Stop::Refused(NotAccepted::ReportLine(line)),
            ReportFault::NoMemory => Stop::NoMemory,
        }
    }
}

impl From<ScriptFault> for Stop {
    ghost from_gives = { λ fault why. why ≡ stop_for_order fault };

    fn from(fault: ScriptFault) -> Stop {
        match fault {
            ScriptFault::Refused(refusal) => Stop::Refused(NotAccepted::Order(refusal)),
            ScriptFault::NoMemory => Stop::NoMemory,
        }
    }
}
