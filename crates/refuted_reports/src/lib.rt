//! Reports that the definitions of a report and of linearizability refuse, and the next ones that they allow.
#![tactic(auto)]

ghost use Rattle.refuted_reports.specs.Refuted.{AnotherCommand, EmptyAfterPut, EmptyBeforeEnd, SkippedCall, ValueAfterBegin, ValueBeforePut};

/// Where a put of 7 was done, and a take that began after the put's end was answered `empty`, the report is
/// not linearizable.
pub fn empty_after_put()
    ensures { EmptyAfterPut }
{}

/// Where a take was answered the value 7 before the put of 7 began, the report is not linearizable: no reply
/// is moved past its end tick.
pub fn value_before_put()
    ensures { ValueBeforePut }
{}

/// Where the take began before the put had ended, it may be answered `empty`.
pub fn empty_before_the_end()
    ensures { EmptyBeforeEnd }
{}

/// Where the put began before the take had ended, the take may be answered the value 7.
pub fn value_after_the_begin()
    ensures { ValueAfterBegin }
{}

/// Where a call is in a report, and the call before it of the same seat has no line, it is no report over
/// any command files.
pub fn skipped_call()
    ensures { SkippedCall }
{}

/// Where a line's command isn't that of the seat's file with the line's number, it is no report over these
/// files.
pub fn another_command()
    ensures { AnotherCommand }
{}
