//! Which events count for a call.
ghost use Rattle.std.specs.Prelude.{◌≡◌};
ghost use Rattle.overtaking_law.specs.Overtaking.{publishes, completes, returns_elsewhere};

use lin_report::{Event, EventKind};

/// Whether the event is the publication of the call.
pub fn publishes(seat: u32, number: u32, event: &Event) -> bool
    ensures { result ≡ publishes seat number event.now }
{
    matches!(event.kind, EventKind::Publish) && event.seat == seat && event.number == number
}

/// Whether the event is the completion of the call.
pub fn completes(seat: u32, number: u32, event: &Event) -> bool
    ensures { result ≡ completes seat number event.now }
{
    matches!(event.kind, EventKind::Complete) && event.seat == seat && event.number == number
}

/// Whether the event is a return of another seat.
pub fn returns_elsewhere(seat: u32, event: &Event) -> bool
    ensures { result ≡ returns_elsewhere seat event.now }
{
    matches!(event.kind, EventKind::Return) && event.seat != seat
}
