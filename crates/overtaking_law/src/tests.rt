//! A run of three seats, counted by hand.
use super::*;
use lin_report::{Event, EventKind};

/// Seat 0 is published and completes, seat 2 is published and never completes, and seat 1 returns four times
/// without being published.
const EVENTS: [Event; 16] = [
    Event {
        kind: EventKind::Begin,
        seat: 0,
        number: 1,
    },
    Event {
        kind: EventKind::Begin,
        seat: 1,
        number: 1,
    },
    Event {
        kind: EventKind::Return,
        seat: 1,
        number: 1,
    },
    Event {
        kind: EventKind::Publish,
        seat: 0,
        number: 1,
    },
    Event {
        kind: EventKind::Begin,
        seat: 1,
        number: 2,
    },
    Event {
        kind: EventKind::Return,
        seat: 1,
        number: 2,
    },
    Event {
        kind: EventKind::Begin,
        seat: 2,
        number: 1,
    },
    Event {
        kind: EventKind::Publish,
        seat: 2,
        number: 1,
    },
    Event {
        kind: EventKind::Begin,
        seat: 1,
        number: 3,
    },
    Event {
        kind: EventKind::Return,
        seat: 1,
        number: 3,
    },
    Event {
        kind: EventKind::Complete,
        seat: 0,
        number: 1,
    },
    Event {
        kind: EventKind::Begin,
        seat: 1,
        number: 4,
    },
    Event {
        kind: EventKind::Return,
        seat: 1,
        number: 4,
    },
    Event {
        kind: EventKind::Return,
        seat: 0,
        number: 1,
    },
    Event {
        kind: EventKind::Begin,
        seat: 0,
        number: 2,
    },
    Event {
        kind: EventKind::Return,
        seat: 0,
        number: 2,
    },
];

#[test]
fn counts_of_a_run(rt: HostRuntime) {
    for (seat, number, count) in [(0, 1, 2), (2, 1, 4), (1, 2, 0), (0, 2, 0), (7, 1, 0)] {
        assert_eq!(rt;
            overtaken(&EVENTS, seat, number),
            count,
            "call {number} of {seat}"
        );
    }
    assert_eq!(rt; greatest_overtaken(&EVENTS), 4);
    assert_eq!(rt; greatest_overtaken(&EVENTS[..11]), 2);
}
