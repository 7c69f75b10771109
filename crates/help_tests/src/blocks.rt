//! A helper that finds no block left completes the call it helps as exhausted.
use crate::calls::{ONE_TAKE, PUT_7, PUT_8, slow_line};
use crate::play::Play;
use crate::rows::Row::{Add, Load, Loses, Store, Wins};
use crate::words::{
    EXECUTING_1, EXHAUSTED_1, EXHAUSTED_2, GENERATE_1, GENERATE_2, NODE_OF_1, QUEUE_3, QUEUE_4,
    QUEUE_6,
};
use fast_slow_engine::{Setup, Turn};
use lin_report::Reply;
use ms_queue::MsQueue;

/// Two seats with one block, whose calls are published at once.
const TWO: Setup = Setup {
    seats: 2,
    cap: 1,
    limit: 0,
};

/// Three.
const THREE: Setup = Setup {
    seats: 3,
    cap: 1,
    limit: 0,
};

#[test]
fn a_helper_that_finds_no_block_left_says_exhausted(rt: HostRuntime) {
    let Some(mut play) = Play::<MsQueue>::new(rt.alloc(), TWO) else {
        panic!(rt; "no memory")
    };
    assert!(rt; play.begin(0, PUT_7) && play.finish(0).is_some());
    assert!(rt; play.begin(0, PUT_8) && play.begin(1, ONE_TAKE));
    play.steps(0, 9);
    let helps = [
        Add(0, 3),
        Load(1, QUEUE_3),
        Load(12, GENERATE_2),
        Load(1, QUEUE_3),
        Load(4, 33),
        Load(24, 2 + (8 << 16)),
        Load(21, NODE_OF_1),
        Load(78, 0),
        Load(2, 1),
        Wins(12, GENERATE_2, EXHAUSTED_2),
        Load(12, EXHAUSTED_2),
        Load(1, QUEUE_3),
        Load(12, EXHAUSTED_2),
        Load(13, 0),
        Wins(1, QUEUE_3, QUEUE_4),
        Store(25, 1),
    ];
    assert_eq!(rt; play.walk(1, helps.as_slice()), Ok(Turn::Going));
    // a published take needs a block for its list
    let take = slow_line(1, 1, ONE_TAKE, Reply::Exhausted, 3, 4);
    assert_eq!(rt; play.finish(1), Some(take));
    let collects = [Load(1, QUEUE_6), Load(12, EXHAUSTED_2), Add(0, 5)];
    let put = Turn::Returned(slow_line(0, 2, PUT_8, Reply::Exhausted, 2, 5));
    assert_eq!(rt; play.walk(0, collects.as_slice()), Ok(put));
    assert_eq!(rt; play.word(46), Some(NODE_OF_1));
    assert_eq!(rt; play.word(20), Some(1));
}

#[test]
fn of_two_helpers_at_the_last_block_one_says_exhausted_and_the_other_keeps_it(rt: HostRuntime) {
    let Some(mut play) = Play::<MsQueue>::new(rt.alloc(), THREE) else {
        panic!(rt; "no memory")
    };
    assert!(rt; play.begin(0, PUT_7) && play.begin(1, PUT_8) && play.begin(2, ONE_TAKE));
    play.steps(0, 10);
    play.steps(1, 9);
    play.steps(2, 9);
    assert_eq!(rt; play.walk(1, [Add(2, 0)].as_slice()), Ok(Turn::Going));
    let none = [Add(2, 1), Wins(12, GENERATE_1, EXHAUSTED_1)];
    assert_eq!(rt; play.walk(2, none.as_slice()), Ok(Turn::Going));
    play.steps(1, 9);
    let late = [Loses(12, GENERATE_1, EXECUTING_1, EXHAUSTED_1)];
    assert_eq!(rt; play.walk(1, late.as_slice()), Ok(Turn::Going));
    let put = slow_line(1, 1, PUT_8, Reply::Done, 1, 3);
    assert_eq!(rt; play.finish(1), Some(put));
    let take = slow_line(2, 1, ONE_TAKE, Reply::Exhausted, 2, 4);
    assert_eq!(rt; play.finish(2), Some(take));
    let first = slow_line(0, 1, PUT_7, Reply::Exhausted, 0, 5);
    assert_eq!(rt; play.finish(0), Some(first));
    assert_eq!(rt; play.word(2), Some(2));
}
