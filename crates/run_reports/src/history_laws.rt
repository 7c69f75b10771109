//! How the calls of a run stand to its changes, and its ticks to its moments.
ghost use Rattle.run_reports.specs.History.{EachCallEnded, NoneChangedTwice, EachCallPlaced, EachTickDrawn, EachTickCounted, HistoryGrows};

use normal_traits::Normalized;

/// Each answered call made a change while it ran, or observed what was held at some moment while it ran and made
/// none, or was left no block and made none; be it answered on its fast path or from its record.
pub fn calls_ended<C: Normalized>()
    ensures { EachCallEnded C.form }
{}

/// No call made two changes, be it by its own seat or by helpers.
pub fn changed_once<C: Normalized>()
    ensures { NoneChangedTwice C.form }
{}

/// Each change was made by a call of the report while it ran, and is answered as the object answers there.
pub fn calls_placed<C: Normalized>()
    ensures { EachCallPlaced C.form }
{}

/// Each tick below the counter was drawn by a move.
pub fn ticks_drawn<C: Normalized>()
    ensures { EachTickDrawn C.form }
{}

/// The count of changes at a tick that was drawn is how many changes there were then.
pub fn ticks_counted<C: Normalized>()
    ensures { EachTickCounted C.form }
{}

/// Changes and won exchanges only come in front: the history of a run begins with that of each earlier moment.
pub fn history_grows<C: Normalized>()
    ensures { HistoryGrows C.form }
{}
