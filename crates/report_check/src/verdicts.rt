//! What a judge answers.
ghost use Rattle.std.specs.Prelude.{◌≡◌};
ghost use Rattle.report_check.specs.Verdicts.{reason_number};

/// Why an order does not show that its report is linearizable.
#[derive(Clone, Copy, Debug, PartialEq, Eq)]
pub enum Reason {
    /// The entry names no call of the report, or one that was answered exhausted.
    NoSuchCall,
    /// The entry names a call that an entry before it names.
    NamedTwice,
    /// The call had ended before one began that an entry before it names.
    AgainstTicks,
    /// The reply of the call is not what the object answers after the entries before it.
    AnotherReply,
    /// A call that was answered, and not exhausted, is named by no entry.
    LeftOut,
}

/// The first entry at fault, counted from 1, and why. Where a call is left out it is one more than there are entries.
#[derive(Clone, Copy, Debug, PartialEq, Eq)]
pub struct Objection {
    pub place: u32,
    pub reason: Reason,
}

/// What an order is worth.
#[derive(Clone, Copy, Debug, PartialEq, Eq)]
pub enum Verdict {
    /// It is a legal arrangement of the report that keeps its ticks.
    Legal,
    /// It is not.
    NotLegal(Objection),
}

/// The number by which a reason is printed.
pub fn reason_number(reason: Reason) -> u32
    ensures { result ≡ reason_number reason }
{
    match reason {
        Reason::NoSuchCall => 1,
        Reason::NamedTwice => 2,
        Reason::AgainstTicks => 3,
        Reason::AnotherReply => 4,
        Reason::LeftOut => 5,
    }
}
