//! Why a file is refused.
ghost use Rattle.std.specs.Prelude.{◌≡◌};
ghost use Rattle.script_reader.specs.declared.causes.ScriptFault.TheVariants.{NoMemory};
ghost use Rattle.script_reader.specs.Outcomes.{cause_number};

use std::alloc::AllocFailed;

/// What is wrong with a line, or with the whole file.
#[derive(Clone, Copy, Debug, PartialEq, Eq)]
pub enum Cause {
    /// The words of the line are not those of a command or of an entry.
    BadCommand,
    /// A number word is no number, or its number is out of range.
    BadNumber,
    /// The line has more than 64 bytes.
    LineTooLong,
    /// As many lines with words as a file may have stand before this one.
    TooManyLines,
    /// The file has more than 1,048,576 bytes. It is told of line 0.
    FileTooLong,
    /// The seat has no command file.
    BadSeat,
}

/// The first line at fault, counted from 1, and what is wrong with it.
#[derive(Clone, Copy, Debug, PartialEq, Eq)]
pub struct Refusal {
    pub line: u32,
    pub cause: Cause,
}

/// Why a file could not be read.
#[derive(Clone, Copy, Debug, PartialEq, Eq)]
pub enum ScriptFault {
    /// The file is not one of the grammar.
    Refused(Refusal),
    /// Want of memory. Nothing else is merged with it.
    NoMemory,
}

impl<T: Drop> From<AllocFailed<T>> for ScriptFault {
    ghost from_gives = { λ _ fault. fault ≡ NoMemory };

    fn from(_failed: AllocFailed<T>) -> ScriptFault {
        ScriptFault::NoMemory
    }
}

/// The number by which a cause is printed.
pub fn cause_number(cause: Cause) -> u32
    ensures { result ≡ cause_number cause }
{
    match cause {
        Cause::BadCommand => 1,
        Cause::BadNumber => 2,
        Cause::LineTooLong => 3,
        Cause::TooManyLines => 4,
        Cause::FileTooLong => 5,
        Cause::BadSeat => 6,
    }
}
