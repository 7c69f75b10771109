//! A seat that stops once its record is stored, or a little later, and another that finishes its call on the way to its
//! own.
use crate::calls::{ADD_5, DEL_5, HAS_5, ONE_TAKE, PUT_7, slow_line};
use crate::play::Play;
use crate::queue_rows::{HELP_PUT, PUT_1, SEVEN_1};
use crate::rows::Row::{self, Add, Load, Loses, Store, Wins};
use crate::words::{DONE_1, GENERATE_1, QUEUE_1, QUEUE_2, QUEUE_4, VALUE_2, YES_1, YES_2};
use fast_slow_engine::{Setup, Turn};
use harris_list::HarrisList;
use lin_report::{Op, Receipt, Reply};
use ms_queue::MsQueue;
use normal_traits::Normalized;

/// Two seats, whose calls are published at once.
const TWO: Setup = Setup {
    seats: 2,
    cap: 8,
    limit: 0,
};

/// The queue word with seat 1 alone in version 3.
const QUEUE_3_OF_1: u64 = (3 << 32) + 2;

/// The step after which a call's record is stored, and that after which its seat is in the queue word.
const ANNOUNCED: u32 = 5;

const ENTERED: u32 = 9;

/// A put that is published by seat 0, up to its entry into the queue word.
const PUBLISH_PUT: [Row; 9] = [
    Add(0, 0),
    Load(1, 0),
    Store(24, SEVEN_1),
    Store(4, PUT_1),
    Store(12, GENERATE_1),
    Load(1, 0),
    Load(12, GENERATE_1),
    Load(13, 0),
    Wins(1, 0, QUEUE_1),
];

#[test]
fn a_put_is_helped_at_the_look_of_a_take(rt: HostRuntime) {
    let Some(mut play) = Play::<MsQueue>::new(rt.alloc(), TWO) else {
        panic!(rt; "no memory")
    };
    assert!(rt; play.begin(0, PUT_7) && play.begin(1, ONE_TAKE));
    assert_eq!(rt; play.walk(0, PUBLISH_PUT.as_slice()), Ok(Turn::Going));
    let looks = [Add(0, 1), Load(1, QUEUE_1)];
    assert_eq!(rt; play.walk(1, looks.as_slice()), Ok(Turn::Going));
    assert_eq!(rt; play.walk(1, HELP_PUT.as_slice()), Ok(Turn::Going));
    let own = [
        Load(13, 0),
        Wins(1, QUEUE_1, QUEUE_2),
        Store(25, 1),
        Store(5, 18),
        Store(13, GENERATE_1),
        Load(1, QUEUE_2),
        Load(12, DONE_1),
        Load(13, GENERATE_1),
        Wins(1, QUEUE_2, QUEUE_3_OF_1),
        Load(1, QUEUE_3_OF_1),
        Load(13, GENERATE_1),
        Load(1, QUEUE_3_OF_1),
        Load(5, 18),
        Load(25, 1),
    ];
    assert_eq!(rt; play.walk(1, own.as_slice()), Ok(Turn::Going));
    let taken = slow_line(1, 1, ONE_TAKE, Reply::Value(7), 1, 2);
    assert_eq!(rt; play.finish(1), Some(taken));
    let collects = [Load(1, QUEUE_4), Load(12, DONE_1), Add(0, 3)];
    let done = Turn::Returned(slow_line(0, 1, PUT_7, Reply::Done, 0, 3));
    assert_eq!(rt; play.walk(0, collects.as_slice()), Ok(done));
}

#[test]
fn an_owner_that_stopped_before_it_entered_finds_its_call_completed(rt: HostRuntime) {
    let Some(mut play) = Play::<MsQueue>::new(rt.alloc(), TWO) else {
        panic!(rt; "no memory")
    };
    let both = (1 << 32) + 1 + (2 << 4);
    assert!(rt; play.begin(0, PUT_7) && play.begin(1, ONE_TAKE));
    play.steps(0, ANNOUNCED);
    let enters = [
        Add(0, 1),
        Load(1, 0),
        Store(25, 1),
        Store(5, 18),
        Store(13, GENERATE_1),
        Load(1, 0),
        Load(12, GENERATE_1),
        Load(13, GENERATE_1),
        Wins(1, 0, both),
        Load(1, both),
        Load(12, GENERATE_1),
    ];
    assert_eq!(rt; play.walk(1, enters.as_slice()), Ok(Turn::Going));
    let taken = slow_line(1, 1, ONE_TAKE, Reply::Value(7), 1, 2);
    assert_eq!(rt; play.finish(1), Some(taken));
    let finds = [Load(1, 3 << 32), Load(12, DONE_1), Add(0, 3)];
    let done = Turn::Returned(slow_line(0, 1, PUT_7, Reply::Done, 0, 3));
    assert_eq!(rt; play.walk(0, finds.as_slice()), Ok(done));
}

#[test]
fn an_owner_that_loses_its_exchange_was_entered_by_the_other(rt: HostRuntime) {
    let Some(mut play) = Play::<MsQueue>::new(rt.alloc(), TWO) else {
        panic!(rt; "no memory")
    };
    let both = (1 << 32) + 1 + (2 << 4);
    assert!(rt; play.begin(0, PUT_7) && play.begin(1, ONE_TAKE));
    play.steps(0, ENTERED - 1);
    play.steps(1, ENTERED);
    let late = [
        Loses(1, 0, QUEUE_1, both),
        Load(1, both),
        Load(1, both),
        Load(12, GENERATE_1),
    ];
    assert_eq!(rt; play.walk(0, late.as_slice()), Ok(Turn::Going));
    let done = slow_line(0, 1, PUT_7, Reply::Done, 0, 2);
    assert_eq!(rt; play.finish(0), Some(done));
    let taken = slow_line(1, 1, ONE_TAKE, Reply::Value(7), 1, 3);
    assert_eq!(rt; play.finish(1), Some(taken));
}

/// Seat 0 begins a call and stops after so many steps, seat 1 makes a whole call, and then seat 0 goes on. The line of
/// seat 1, the record of seat 0 at that moment, and the line of seat 0.
fn finished_by_another<C: Normalized>(
    play: &mut Play<C>,
    stopped: Op,
    after: u32,
    other: Op,
) -> Option<(Receipt, u64, Receipt)> {
    play.begin(0, stopped);
    play.steps(0, after);
    play.begin(1, other);
    let line = play.finish(1)?;
    let record = play.word(12)?;
    Some((line, record, play.finish(0)?))
}

#[test]
fn put_and_take_are_finished_wherever_their_seat_stops(rt: HostRuntime) {
    for after in ANNOUNCED..=ENTERED {
        let Some(mut play) = Play::<MsQueue>::new(rt.alloc(), TWO) else {
            panic!(rt; "no memory")
        };
        let put = slow_line(0, 1, PUT_7, Reply::Done, 0, 3);
        let take = slow_line(1, 1, ONE_TAKE, Reply::Value(7), 1, 2);
        let came = finished_by_another(&mut play, PUT_7, after, ONE_TAKE);
        assert_eq!(rt; came, Some((take, DONE_1, put)), "after {after} steps");
    }
    for after in ANNOUNCED..=ENTERED {
        let Some(mut play) = Play::<MsQueue>::new(rt.alloc(), TWO) else {
            panic!(rt; "no memory")
        };
        assert!(rt; play.begin(0, PUT_7) && play.finish(0).is_some());
        let take = slow_line(0, 2, ONE_TAKE, Reply::Value(7), 2, 5);
        let empty = slow_line(1, 1, ONE_TAKE, Reply::Empty, 3, 4);
        let came = finished_by_another(&mut play, ONE_TAKE, after, ONE_TAKE);
        assert_eq!(rt; came, Some((empty, VALUE_2, take)), "after {after} steps");
    }
}

#[test]
fn add_and_del_are_finished_wherever_their_seat_stops(rt: HostRuntime) {
    for after in ANNOUNCED..=ENTERED {
        let Some(mut play) = Play::<HarrisList>::new(rt.alloc(), TWO) else {
            panic!(rt; "no memory")
        };
        let add = slow_line(0, 1, ADD_5, Reply::Yes, 0, 3);
        let has = slow_line(1, 1, HAS_5, Reply::Yes, 1, 2);
        let came = finished_by_another(&mut play, ADD_5, after, HAS_5);
        assert_eq!(rt; came, Some((has, YES_1, add)), "after {after} steps");
        let del = slow_line(0, 2, DEL_5, Reply::Yes, 4, 7);
        let gone = slow_line(1, 2, DEL_5, Reply::No, 5, 6);
        let came = finished_by_another(&mut play, DEL_5, after, DEL_5);
        assert_eq!(rt; came, Some((gone, YES_2, del)), "after {after} steps");
    }
}
