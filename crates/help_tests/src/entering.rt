//! Announced seats that an exchange of the queue word enters, whoever makes it.
use crate::calls::{ONE_TAKE, PUT_7, PUT_8, slow_line};
use crate::play::Play;
use crate::queue_rows::HELP_PUT;
use crate::rows::Row::{Load, Wins};
use crate::words::{DONE_1, GENERATE_1, QUEUE_1, QUEUE_OF_EIGHT};
use fast_slow_engine::{Setup, Turn};
use lin_report::calls::PUT;
use lin_report::{Op, Receipt, Reply};
use ms_queue::MsQueue;

/// Eight seats, whose calls are published at once.
const EIGHT: Setup = Setup {
    seats: 8,
    cap: 16,
    limit: 0,
};

/// Three.
const THREE: Setup = Setup {
    seats: 3,
    cap: 8,
    limit: 0,
};

/// The queue word with seat 2 alone in version 2.
const THIRD_ALONE: u64 = (2 << 32) + 3;

/// The step after which a call's record is stored.
const ANNOUNCED: u32 = 5;

/// A put of this value.
fn put_of(value: u32) -> Op {
    Op {
        code: PUT,
        key: 0,
        value,
    }
}

/// The line of a seat's `put`, which puts its own number.
fn own_line(seat: u32, end: u64) -> Receipt {
    slow_line(seat, 1, put_of(seat), Reply::Done, u64::from(seat), end)
}

#[test]
fn one_exchange_enters_all_eight_seats(rt: HostRuntime) {
    let Some(mut play) = Play::<MsQueue>::new(rt.alloc(), EIGHT) else {
        panic!(rt; "no memory")
    };
    for seat in 0..8u32 {
        assert!(rt; play.begin(seat, put_of(seat)));
        play.steps(seat, ANNOUNCED);
    }
    let enters = [
        Load(1, 0),
        Load(12, GENERATE_1),
        Load(13, GENERATE_1),
        Load(14, GENERATE_1),
        Load(15, GENERATE_1),
        Load(16, GENERATE_1),
        Load(17, GENERATE_1),
        Load(18, GENERATE_1),
        Load(19, GENERATE_1),
        Wins(1, 0, QUEUE_OF_EIGHT),
        Load(1, QUEUE_OF_EIGHT),
        Load(12, GENERATE_1),
        Load(1, QUEUE_OF_EIGHT),
    ];
    assert_eq!(rt; play.walk(7, enters.as_slice()), Ok(Turn::Going));
    assert_eq!(rt; play.finish(7), Some(own_line(7, 8)));
    for seat in 0..8u32 {
        assert_eq!(rt; play.word(12 + seat), Some(DONE_1), "of seat {seat}");
    }
    // one change entered all eight, and eight changes removed one each
    assert_eq!(rt; play.word(1), Some(9 << 32));
    assert!(rt; play.begin(7, ONE_TAKE));
    let take = slow_line(7, 2, ONE_TAKE, Reply::Value(0), 9, 10);
    assert_eq!(rt; play.finish(7), Some(take));
    for seat in 0..7u32 {
        assert_eq!(rt;
            play.finish(seat),
            Some(own_line(seat, 11 + u64::from(seat)))
        );
    }
    assert_eq!(rt; play.word(1), Some(11 << 32));
    assert_eq!(rt; play.word(2), Some(9));
}

#[test]
fn a_removal_enters_whom_it_finds(rt: HostRuntime) {
    let Some(mut play) = Play::<MsQueue>::new(rt.alloc(), THREE) else {
        panic!(rt; "no memory")
    };
    // seat 2 has looked at the empty queue word, and announces its call while seat 1 helps
    assert!(rt; play.begin(2, PUT_8) && play.begin(0, PUT_7) && play.begin(1, ONE_TAKE));
    play.steps(2, 2);
    play.steps(0, 10);
    play.steps(1, 2);
    assert_eq!(rt; play.walk(1, HELP_PUT.as_slice()), Ok(Turn::Going));
    play.steps(2, ANNOUNCED - 2);
    let removes = [
        Load(13, 0),
        Load(14, GENERATE_1),
        Wins(1, QUEUE_1, THIRD_ALONE),
    ];
    assert_eq!(rt; play.walk(1, removes.as_slice()), Ok(Turn::Going));
    let enters = [
        Load(1, THIRD_ALONE),
        Load(1, THIRD_ALONE),
        Load(14, GENERATE_1),
    ];
    assert_eq!(rt; play.walk(2, enters.as_slice()), Ok(Turn::Going));
    let take = slow_line(1, 1, ONE_TAKE, Reply::Value(7), 2, 3);
    assert_eq!(rt; play.finish(1), Some(take));
    let eight = slow_line(2, 1, PUT_8, Reply::Done, 0, 4);
    assert_eq!(rt; play.finish(2), Some(eight));
    let seven = slow_line(0, 1, PUT_7, Reply::Done, 1, 5);
    assert_eq!(rt; play.finish(0), Some(seven));
}
