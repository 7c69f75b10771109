//! A helper that finds the words of a later call, or a list in execution, and an owner that finds itself at the head.
use crate::calls::{ONE_TAKE, PUT_7, PUT_8, PUT_9, slow_line};
use crate::play::Play;
use crate::queue_rows::{PUT_1, TAKE_2};
use crate::rows::Row::{self, Add, Load, Loses, Store, Wins};
use crate::words::{BIT, DONE_1, EXECUTING_2, GENERATE_1, GENERATE_2, NODE_OF_1, QUEUE_2, QUEUE_3};
use fast_slow_engine::{Setup, Turn};
use lin_report::Reply;
use ms_queue::MsQueue;
use std::alloc::Global;
use std::process::Abort;

/// Two seats, whose calls are published at once.
const TWO: Setup = Setup {
    seats: 2,
    cap: 8,
    limit: 0,
};

/// The step after which a call's record is stored, and that after which its seat is in the queue word.
const ANNOUNCED: u32 = 5;

const ENTERED: u32 = 9;

/// The op word of `put` as call 2.
const PUT_2: u64 = 1 + (2 << 4);

/// The value word of `put 9` as call 2.
const NINE_2: u64 = 2 + (9 << 16);

/// The record of call 2, done.
const DONE_2: u64 = 4 + (2 << 3) + (2 << 36);

/// The step after which the helper has completed the call and has loaded its record once more.
const COMPLETES: u32 = 47;

/// The step after which the owner's next call, which nobody else helps, is completed and still in the queue word.
const COMPLETED: u32 = 54;

/// The helper's own call begins, so it has left off helping.
const LEAVES: Row = Store(25, 1);

/// The queue word with both seats, seat 0 at its head, in version 1, and with seat 1 alone in version 2.
const BOTH: u64 = (1 << 32) + 1 + (2 << 4);

const SECOND_ALONE: u64 = (2 << 32) + 2;

/// Seat 0 enters, seat 1 makes these steps, and seat 0 ends its call and makes so many of its next one. Then seat 1 takes
/// these steps, with which it leaves off helping, and both calls end as they should.
fn leaves_off(rt: &impl Abort, alloc: Global, helped: u32, later: u32, rows: &[Row]) {
    let Some(mut play) = Play::<MsQueue>::new(alloc, TWO) else {
        panic!(rt; "no memory")
    };
    assert!(rt; play.begin(0, PUT_7) && play.begin(1, ONE_TAKE));
    play.steps(0, ENTERED);
    play.steps(1, helped);
    assert!(rt; play.finish(0).is_some() && play.begin(0, PUT_9));
    play.steps(0, later);
    assert_eq!(rt;
        play.walk(1, rows),
        Ok(Turn::Going),
        "after {helped} and {later}"
    );
    let take = play.finish(1);
    assert!(rt; take.is_some_and(|line| line.reply == Reply::Value(7)));
    let put = play.finish(0);
    assert!(rt; put.is_some_and(|line| line.number == 2 && line.reply == Reply::Done));
}

#[test]
fn a_helper_leaves_off_where_the_head_is_gone(rt: HostRuntime) {
    let alloc = rt.alloc();
    leaves_off(&rt, alloc, 3, 0, [Load(1, QUEUE_2), LEAVES].as_slice());
}

#[test]
fn a_helper_leaves_off_where_it_meets_words_of_a_later_call(rt: HostRuntime) {
    for (helped, later, rows) in [
        (
            4,
            3,
            [
                Load(4, PUT_1),
                Load(24, NINE_2),
                Load(12, DONE_1),
                Load(1, QUEUE_2),
                LEAVES,
            ]
            .as_slice(),
        ),
        (
            4,
            4,
            [Load(4, PUT_2), Load(12, DONE_1), Load(1, QUEUE_2), LEAVES].as_slice(),
        ),
        (
            4,
            5,
            [Load(4, PUT_2), Load(12, GENERATE_2), LEAVES].as_slice(),
        ),
        (
            5,
            5,
            [Load(24, NINE_2), Load(12, GENERATE_2), LEAVES].as_slice(),
        ),
    ] {
        leaves_off(&rt, rt.alloc(), helped, later, rows);
    }
}

#[test]
fn a_removal_leaves_off_where_the_owner_heads_with_a_later_call(rt: HostRuntime) {
    for (later, record) in [(ENTERED, GENERATE_2), (COMPLETED, DONE_2)] {
        let rows = [Load(1, QUEUE_3), Load(12, record), LEAVES];
        leaves_off(&rt, rt.alloc(), COMPLETES, later, rows.as_slice());
    }
}

#[test]
fn a_search_that_meets_a_list_in_execution_loads_the_record_anew(rt: HostRuntime) {
    let Some(mut play) = Play::<MsQueue>::new(rt.alloc(), TWO) else {
        panic!(rt; "no memory")
    };
    assert!(rt; play.begin(0, PUT_7) && play.finish(0).is_some());
    assert!(rt; play.begin(0, ONE_TAKE) && play.begin(1, PUT_8));
    play.steps(0, ENTERED);
    play.steps(1, 6);
    assert!(rt; play.reach_listed(0));
    play.steps(0, 1);
    let anew = [
        Load(20, NODE_OF_1 + BIT),
        Load(12, EXECUTING_2),
        Load(1, QUEUE_3),
        Load(97, TAKE_2),
    ];
    assert_eq!(rt; play.walk(1, anew.as_slice()), Ok(Turn::Going));
    let put = slow_line(1, 1, PUT_8, Reply::Done, 3, 4);
    assert_eq!(rt; play.finish(1), Some(put));
    let take = slow_line(0, 2, ONE_TAKE, Reply::Value(7), 2, 5);
    assert_eq!(rt; play.finish(0), Some(take));
}

#[test]
fn an_owner_that_finds_itself_at_the_head_removes_itself(rt: HostRuntime) {
    let Some(mut play) = Play::<MsQueue>::new(rt.alloc(), TWO) else {
        panic!(rt; "no memory")
    };
    assert!(rt; play.begin(0, PUT_7) && play.begin(1, ONE_TAKE));
    // seat 0 has loaded the empty queue word, and is then entered and completed by seat 1
    play.steps(0, ANNOUNCED + 1);
    play.steps(1, ENTERED);
    assert_eq!(rt; play.word(1), Some(BOTH));
    assert!(rt; play.reach(1, 1));
    let done = Turn::Returned(slow_line(0, 1, PUT_7, Reply::Done, 0, 2));
    let finished = [Load(12, DONE_1), Add(0, 2)];
    assert_eq!(rt; play.walk(0, finished.as_slice()), Ok(done));
    assert!(rt; play.begin(0, PUT_9));
    let removes = [
        Add(0, 3),
        Load(1, BOTH),
        Load(12, DONE_1),
        Load(1, BOTH),
        Load(12, DONE_1),
        Wins(1, BOTH, SECOND_ALONE),
        Store(24, NINE_2),
    ];
    assert_eq!(rt; play.walk(0, removes.as_slice()), Ok(Turn::Going));
    let late = [
        Loses(1, BOTH, SECOND_ALONE, SECOND_ALONE),
        Load(1, SECOND_ALONE),
        Load(1, SECOND_ALONE),
        Load(13, GENERATE_1),
    ];
    assert_eq!(rt; play.walk(1, late.as_slice()), Ok(Turn::Going));
    let take = slow_line(1, 1, ONE_TAKE, Reply::Value(7), 1, 4);
    assert_eq!(rt; play.finish(1), Some(take));
    let done = slow_line(0, 2, PUT_9, Reply::Done, 3, 5);
    assert_eq!(rt; play.finish(0), Some(done));
}
