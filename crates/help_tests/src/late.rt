//! A helper that stops before its exchange of a record, while others go on: the exchange is lost and changes nothing,
//! and a block that it did not spend stays in its hand.
use crate::calls::{ONE_TAKE, PUT_7, PUT_8, PUT_9, slow_line};
use crate::play::Play;
use crate::queue_rows::PUT_1;
use crate::rows::Row::{self, Load, Loses, Store, Wins};
use crate::words::{
    BIT, DONE_1, EXECUTING_1, EXECUTING_1_IN_2, GENERATE_1, GENERATE_2, NODE_OF_1, NODE_OF_2,
    QUEUE_4, WRAPPING_1, WRAPPING_1_IN_2,
};
use fast_slow_engine::{Setup, Turn};
use lin_report::Reply;
use ms_queue::MsQueue;
use std::alloc::Global;
use step_memory::Request;

/// Three seats, whose calls are published at once: an owner, a helper that will be late, and another helper.
const THREE: Setup = Setup {
    seats: 3,
    cap: 8,
    limit: 0,
};

/// The step after which the owner's seat is in the queue word.
const ENTERED: u32 = 10;

/// The places of the records of the owner and of the late helper.
const OWNER: u32 = 12;

const LATE: u32 = 13;

/// The owner's `put 7` is published, and both helpers have looked at the queue word: one on its way to `put 8`, the other
/// on its way to a take.
fn helped_by_two(alloc: Global) -> Option<Play<MsQueue>> {
    let mut play = Play::<MsQueue>::new(alloc, THREE)?;
    play.begin(0, PUT_7);
    play.steps(0, ENTERED);
    play.begin(1, PUT_8);
    play.steps(1, 2);
    play.begin(2, ONE_TAKE);
    play.steps(2, 2);
    Some(play)
}

/// A seat makes so many exchanges of the owner's record. Whether it comes to them.
fn advances(play: &mut Play<MsQueue>, seat: u32, times: u32) -> bool {
    for _ in 0..times {
        if !play.reach(seat, OWNER) {
            return false;
        }
        play.step(seat);
    }
    true
}

/// How many exchanges of the record the late helper makes before it stops, how many the other makes then, the exchange
/// that is lost, and the word to which the late helper advances its own call at last: its block 1, where no record has
/// named it, and a new one otherwise.
const EXCHANGES: [(u32, u32, Row, u64); 6] = [
    (
        0,
        1,
        Loses(OWNER, GENERATE_1, EXECUTING_1, EXECUTING_1_IN_2),
        EXECUTING_1,
    ),
    (
        0,
        2,
        Loses(OWNER, GENERATE_1, EXECUTING_1, WRAPPING_1_IN_2),
        EXECUTING_1,
    ),
    (
        0,
        3,
        Loses(OWNER, GENERATE_1, EXECUTING_1, DONE_1),
        EXECUTING_1,
    ),
    (
        1,
        1,
        Loses(OWNER, EXECUTING_1, WRAPPING_1, WRAPPING_1),
        EXECUTING_1_IN_2,
    ),
    (
        1,
        2,
        Loses(OWNER, EXECUTING_1, WRAPPING_1, DONE_1),
        EXECUTING_1_IN_2,
    ),
    (
        2,
        1,
        Loses(OWNER, WRAPPING_1, DONE_1, DONE_1),
        EXECUTING_1_IN_2,
    ),
];

#[test]
fn an_exchange_that_comes_one_two_or_three_too_late_is_lost(rt: HostRuntime) {
    for (own, others, row, to) in EXCHANGES {
        let Some(mut play) = helped_by_two(rt.alloc()) else {
            panic!(rt; "no memory")
        };
        assert!(rt; advances(&mut play, 1, own) && play.reach(1, OWNER));
        assert!(rt; advances(&mut play, 2, others));
        let found = row.leaves().1;
        let rows = [row, Load(OWNER, found)];
        assert_eq!(rt;
            play.walk(1, rows.as_slice()),
            Ok(Turn::Going),
            "late by {others}"
        );
        assert!(rt; play.reach(1, LATE));
        let advance = Request::Exchange {
            at: LATE,
            from: GENERATE_1,
            to,
        };
        assert_eq!(rt; play.next(1), Some(advance), "late by {others}");
        let put = slow_line(1, 1, PUT_8, Reply::Done, 1, 3);
        assert_eq!(rt; play.finish(1), Some(put));
        let take = slow_line(2, 1, ONE_TAKE, Reply::Value(7), 2, 4);
        assert_eq!(rt; play.finish(2), Some(take));
        let done = slow_line(0, 1, PUT_7, Reply::Done, 0, 5);
        assert_eq!(rt; play.finish(0), Some(done));
    }
}

#[test]
fn a_helper_that_is_late_by_a_call_leaves_the_next_one_alone(rt: HostRuntime) {
    let Some(mut play) = helped_by_two(rt.alloc()) else {
        panic!(rt; "no memory")
    };
    assert!(rt; play.reach(1, OWNER));
    let take = slow_line(2, 1, ONE_TAKE, Reply::Value(7), 2, 3);
    assert_eq!(rt; play.finish(2), Some(take));
    let done = slow_line(0, 1, PUT_7, Reply::Done, 0, 4);
    assert_eq!(rt; play.finish(0), Some(done));
    assert!(rt; play.begin(0, PUT_9));
    play.steps(0, ENTERED);
    assert_eq!(rt; play.word(OWNER), Some(GENERATE_2));
    let late = [
        Loses(OWNER, GENERATE_1, EXECUTING_1, GENERATE_2),
        Load(OWNER, GENERATE_2),
        Store(25, 1 + (8 << 16)),
    ];
    assert_eq!(rt; play.walk(1, late.as_slice()), Ok(Turn::Going));
    let put = slow_line(1, 1, PUT_8, Reply::Done, 1, 6);
    assert_eq!(rt; play.finish(1), Some(put));
    let done = slow_line(0, 2, PUT_9, Reply::Done, 5, 7);
    assert_eq!(rt; play.finish(0), Some(done));
    for (value, begin) in [(9, 8), (8, 10)] {
        assert!(rt; play.begin(0, ONE_TAKE));
        let line = play.finish(0);
        assert!(rt;
            line.is_some_and(|line| line.reply == Reply::Value(value) && line.begin == begin)
        );
    }
}

/// The queue word with seat 1 alone in version 5.
const QUEUE_5_OF_1: u64 = (5 << 32) + 2;

/// The value word of `put 8` as call 1.
const EIGHT_1: u64 = 1 + (8 << 16);

/// The record of the other helper's call 1, answered with the value of node 1 of block 2.
const VALUE_OF_NODE_OF_2: u64 = 4 + (1 << 3) + ((3 + (9 << 3)) << 36);

/// The late helper's way from its lost exchange to the first entry of its own list.
const ANEW: [Row; 42] = [
    Loses(OWNER, GENERATE_1, EXECUTING_1, DONE_1),
    Load(OWNER, DONE_1),
    // the owner isn't the head any more, and helping ends
    Load(1, QUEUE_4),
    Store(25, EIGHT_1),
    Store(5, PUT_1),
    Store(LATE, GENERATE_1),
    Load(1, QUEUE_4),
    Load(OWNER, DONE_1),
    Load(LATE, GENERATE_1),
    Load(14, VALUE_OF_NODE_OF_2),
    Wins(1, QUEUE_4, QUEUE_5_OF_1),
    Load(1, QUEUE_5_OF_1),
    Load(LATE, GENERATE_1),
    Load(1, QUEUE_5_OF_1),
    Load(5, PUT_1),
    Load(25, EIGHT_1),
    Load(21, NODE_OF_2),
    Load(110, 0),
    // no claim: the block in hand is filled anew
    Store(64, 9),
    Store(65, PUT_1),
    Store(75, EIGHT_1),
    Store(66, 1),
    Store(67, 110),
    Store(68, 0),
    Store(69, NODE_OF_1),
    Store(77, 8),
    Store(78, 0),
    Wins(LATE, GENERATE_1, EXECUTING_1),
    Load(LATE, EXECUTING_1),
    Load(1, QUEUE_5_OF_1),
    Load(65, PUT_1),
    Load(75, EIGHT_1),
    Load(66, 1),
    Load(67, 110),
    Load(68, 0),
    Load(69, NODE_OF_1),
    Load(73, 0),
    Wins(110, 0, NODE_OF_1 + BIT),
    Load(110, NODE_OF_1 + BIT),
    Wins(73, 0, 1),
    Load(73, 1),
    Wins(110, NODE_OF_1 + BIT, NODE_OF_1),
];

#[test]
fn a_block_in_hand_is_filled_anew_for_the_next_list(rt: HostRuntime) {
    let Some(mut play) = helped_by_two(rt.alloc()) else {
        panic!(rt; "no memory")
    };
    assert!(rt; play.reach(1, OWNER));
    assert_eq!(rt; play.word(64), Some(8));
    assert_eq!(rt; play.word(77), Some(7));
    let take = slow_line(2, 1, ONE_TAKE, Reply::Value(7), 2, 3);
    assert_eq!(rt; play.finish(2), Some(take));
    assert_eq!(rt; play.walk(1, ANEW.as_slice()), Ok(Turn::Going));
    let put = slow_line(1, 1, PUT_8, Reply::Done, 1, 4);
    assert_eq!(rt; play.finish(1), Some(put));
    assert_eq!(rt; play.word(2), Some(3));
    let done = slow_line(0, 1, PUT_7, Reply::Done, 0, 5);
    assert_eq!(rt; play.finish(0), Some(done));
}
