//! The events of every run: in which order they come, and how often they say that a call is overtaken.
ghost use Rattle.run_overtaking.specs.Events.{OvertakenBounded, GreatestBounded, EventsFit, EventsOrdered};

use normal_traits::Normalized;

/// No call of a run is overtaken more often than (P - 1) (P + 2) / 2 times, where P is the number of seats.
pub fn overtaken_bounded<C: Normalized>()
    ensures { OvertakenBounded C.form }
{}

/// So the greatest overtaking count of a run is at most that.
pub fn greatest_bounded<C: Normalized>()
    ensures { GreatestBounded C.form }
{}

/// The events of a run are ordered: each comes once, a call completes behind its publication, and is published where no
/// other call of its seat is open.
pub fn events_ordered<C: Normalized>()
    ensures { EventsOrdered C.form }
{}

/// There are at most four for each call that was begun, so room for so many is enough.
pub fn events_fit<C: Normalized>()
    ensures { EventsFit C.form }
{}
