//! What holds of every world after any acts: steps of its helpers, and changes of its targets by others.
ghost use Rattle.cas_executor_laws.specs.Laws.{BehindWaits, BitsBelong, EarlierDone, FailedNever, FailureIsSeen, NeverFromAgain, PendingShows, StopsAgree, StopsAtFirstFailed, StopsClear, SucceededTook, SuccessIsSeen, WinsOnce};

/// The listed exchange of each entry wins at most once, whoever makes it.
pub fn wins_once()
    ensures { WinsOnce }
{}

/// A set bit at a target is that of the entry there. The entry took effect, all entries before it have
/// succeeded, and it hasn't failed.
pub fn bits_belong()
    ensures { BitsBelong }
{}

/// A pending entry has taken effect exactly where its target is `to` with its bit set.
pub fn pending_shows()
    ensures { PendingShows }
{}

/// An entry that succeeded has taken effect.
pub fn succeeded_took()
    ensures { SucceededTook }
{}

/// An entry that failed hasn't taken effect, and never will.
pub fn failed_never()
    ensures { FailedNever }
{}

/// An entry behind one that hasn't succeeded is pending, and hasn't taken effect.
pub fn behind_waits()
    ensures { BehindWaits }
{}

/// After a helper's listed exchange of an entry, won or lost, the target is never `from` again.
pub fn never_from_again()
    ensures { NeverFromAgain }
{}

/// Where a helper has seen that an entry succeeded, the entry has taken effect.
pub fn success_is_seen()
    ensures { SuccessIsSeen }
{}

/// Where a helper has seen that an entry failed, the entry is decided, or never takes effect.
pub fn failure_is_seen()
    ensures { FailureIsSeen }
{}

/// All entries before the one that a helper is at, or has stopped at, have succeeded, and their bits are
/// clear.
pub fn earlier_done()
    ensures { EarlierDone }
{}

/// A helper that stopped did so at the first entry that failed, or at the length where none did.
pub fn stops_at_first_failed()
    ensures { StopsAtFirstFailed }
{}

/// All helpers that stop give the same place, whenever they stop.
pub fn stops_agree()
    ensures { StopsAgree }
{}

/// Where a helper has stopped, no target has its bit set.
pub fn stops_clear()
    ensures { StopsClear }
{}
