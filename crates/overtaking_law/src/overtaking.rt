//! Overtaking counts.
ghost use Rattle.std.specs.Prelude.{◌≡◌, ◌≤◌, ◌<◌, ℕ, length};
ghost use Rattle.std.specs.List.{before_first, after_first, position_or_len};
ghost use Rattle.overtaking_law.specs.Overtaking.{publishes, completes, overtaken, greatest_overtaken};
ghost use Rattle.overtaking_law.specs.Order.{AreOrdered};

use crate::kinds::{completes, publishes, returns_elsewhere};
use crate::open_calls::{OpenCall, complete, overtake};
use lin_report::{Event, EventKind};

/// How many events stand before the publication of the call.
fn publication_place(events: &[Event], seat: u32, number: u32) -> usize
    ensures place { result ≡ position_or_len (publishes seat number) events.now }
    ensures within { result ≤ length events.now }
{
    events
        .iter()
        .take_while(|event| !publishes(seat, number, event))
        .count()
}

/// How many events stand before the completion of the call.
fn completion_place(events: &[Event], seat: u32, number: u32) -> usize
    ensures place { result ≡ position_or_len (completes seat number) events.now }
    ensures within { result ≤ length events.now }
{
    events
        .iter()
        .take_while(|event| !completes(seat, number, event))
        .count()
}

/// The events behind the publication of the call.
fn after_publication(events: &[Event], seat: u32, number: u32) -> &[Event]
    ensures { result.now ≡ after_first (publishes seat number) events.now }
{
    let place = publication_place(events, seat, number);
    if place == events.len() {
        return &[];
    }
    &events[place + 1..]
}

/// The events before the completion of the call.
fn before_completion(events: &[Event], seat: u32, number: u32) -> &[Event]
    ensures { result.now ≡ before_first (completes seat number) events.now }
{
    &events[..completion_place(events, seat, number)]
}

/// How often the NUMBER-th call of a seat was overtaken: the returns of other seats behind its publication
/// and before its completion.
#[tactic(auto, unfolding(crate::specs::Overtaking::overtaken))]
pub fn overtaken(events: &[Event], seat: u32, number: u32) -> u64
    ensures { result ≡ overtaken events.now seat number }
{
    before_completion(after_publication(events, seat, number), seat, number)
        .iter()
        .filter(|event| returns_elsewhere(seat, event))
        .count() as u64
}

/// The greatest overtaking count of all calls, 0 where no call is overtaken.
pub fn greatest_overtaken(events: &[Event]) -> u64
    requires { AreOrdered events.now }
    ensures greatest { result ≡ greatest_overtaken events.now }

    // No call is overtaken more often, and one as often, if any is at all.
    ensures bound { (seat number : ℕ) → overtaken events.now seat number ≤ result }
    ensures reached { 0 < result → (seat : ℕ) × (number : ℕ) × (overtaken events.now seat number ≡ result) }
{
    let mut calls: [Option<OpenCall>; 8] = [None; 8];
    let mut most = 0;
    for event in events {
        let seat = event.seat as usize;
        match event.kind {
            EventKind::Begin => {}
            EventKind::Publish => {
                calls[seat] = Some(OpenCall {
                    number: event.number,
                    overtaken: 0,
                });
            }
            EventKind::Complete => complete(&mut calls, seat, event.number),
            EventKind::Return => most = most.max(overtake(&mut calls, seat)),
        }
    }
    most
}
