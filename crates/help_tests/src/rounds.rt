//! Worked runs of two seats that meet in one list: entries that were made by another, that come too late, and a list
//! that is made anew.
use crate::acts::Act::{self, Calls, Ends, Reaches, Steps};
use crate::acts::first_undone;
use crate::calls::{ADD_5, DEL_5, HAS_5, ONE_TAKE, PUT_7, PUT_8, PUT_9, PUT_GREATEST};
use crate::play::Play;
use crate::queue_rows::{PUT_1, SEVEN_1};
use crate::rows::Row::{self, Add, Load, Loses, Store, Wins};
use crate::words::{BIT, EXECUTING_1, NODE_OF_1, NODE_OF_2, NODE_OF_3, NODE_OF_4, QUEUE_1};
use fast_slow_engine::{Setup, Turn};
use harris_list::HarrisList;
use lin_report::Path::{Fast, Slow};
use lin_report::Reply;
use ms_queue::MsQueue;

/// Two seats, whose calls are published after so many failures.
const TWO: Setup = Setup {
    seats: 2,
    cap: 8,
    limit: 0,
};

const TWO_AFTER_ONE: Setup = Setup {
    seats: 2,
    cap: 8,
    limit: 1,
};

/// The first entry is not made yet: a taker makes it.
const TAKER_COMPLETES: [Act; 5] = [
    Calls(0, PUT_7),
    Reaches(0),
    Calls(1, ONE_TAKE),
    Ends(1, Reply::Value(7), 1, 2, Slow),
    Ends(0, Reply::Done, 0, 3, Slow),
];

/// The entry is made and undecided.
const TAKER_DECIDES: [Act; 6] = [
    Calls(0, PUT_7),
    Reaches(0),
    Steps(0, 1),
    Calls(1, ONE_TAKE),
    Ends(1, Reply::Value(7), 1, 2, Slow),
    Ends(0, Reply::Done, 0, 3, Slow),
];

/// The owner's own exchange comes too late, and the value comes out once.
const ONCE: [Act; 7] = [
    Calls(0, PUT_7),
    Reaches(0),
    Calls(1, ONE_TAKE),
    Ends(1, Reply::Value(7), 1, 2, Slow),
    Ends(0, Reply::Done, 0, 3, Slow),
    Calls(1, ONE_TAKE),
    Ends(1, Reply::Empty, 4, 5, Slow),
];

/// The greatest value comes through.
const GREATEST: [Act; 5] = [
    Calls(0, PUT_GREATEST),
    Reaches(0),
    Calls(1, ONE_TAKE),
    Ends(1, Reply::Value(4_294_967_295), 1, 2, Slow),
    Ends(0, Reply::Done, 0, 3, Slow),
];

/// A helper makes the second entry.
const SECOND_ENTRY: [Act; 8] = [
    Calls(0, ADD_5),
    Ends(0, Reply::Yes, 0, 1, Slow),
    Calls(0, DEL_5),
    Reaches(0),
    Reaches(0),
    Calls(1, HAS_5),
    Ends(1, Reply::No, 3, 4, Slow),
    Ends(0, Reply::Yes, 2, 5, Slow),
];

#[test]
fn entries_are_made_once_by_whomever(rt: HostRuntime) {
    for acts in [
        TAKER_COMPLETES.as_slice(),
        TAKER_DECIDES.as_slice(),
        ONCE.as_slice(),
        GREATEST.as_slice(),
    ] {
        let Some(mut play) = Play::<MsQueue>::new(rt.alloc(), TWO) else {
            panic!(rt; "no memory")
        };
        assert_eq!(rt; first_undone(&mut play, acts), None);
    }
    let Some(mut play) = Play::<HarrisList>::new(rt.alloc(), TWO) else {
        panic!(rt; "no memory")
    };
    assert_eq!(rt; first_undone(&mut play, SECOND_ENTRY.as_slice()), None);
}

#[test]
fn a_late_listed_exchange_is_lost_and_decides_nothing(rt: HostRuntime) {
    let Some(mut play) = Play::<MsQueue>::new(rt.alloc(), TWO) else {
        panic!(rt; "no memory")
    };
    assert!(rt; play.begin(0, PUT_7) && play.reach_listed(0));
    assert!(rt; play.begin(1, ONE_TAKE) && play.finish(1).is_some());
    let late = [
        Loses(46, 0, NODE_OF_1 + BIT, NODE_OF_1),
        Load(46, NODE_OF_1),
        Loses(73, 0, 2, 1),
        Load(73, 1),
        Loses(46, NODE_OF_1 + BIT, NODE_OF_1, NODE_OF_1),
    ];
    assert_eq!(rt; play.walk(0, late.as_slice()), Ok(Turn::Going));
    assert_eq!(rt; play.word(20), Some(NODE_OF_1));
}

/// A put fails once on its own, is published, and names block 1 for a list that comes too late again.
const SECOND_ROUND: [Act; 8] = [
    Calls(0, PUT_7),
    Reaches(0),
    Calls(1, PUT_8),
    Ends(1, Reply::Done, 1, 2, Fast),
    Calls(1, PUT_9),
    Reaches(1),
    Reaches(0),
    Ends(1, Reply::Done, 3, 4, Fast),
];

/// Call 1 with a list in block 1 whose first entry failed.
const WRAPPING_AT_0: u64 = 3 + (1 << 3) + (1 << 36);

/// Call 1 in its second round.
const GENERATE_AGAIN: u64 = 1 + (1 << 3) + (1 << 19);

/// Call 1 in its second round, with its list in block 4.
const EXECUTING_AGAIN: u64 = 2 + (1 << 3) + (1 << 19) + (4 << 36);

/// Call 1 done in its second round.
const DONE_AGAIN: u64 = 4 + (1 << 3) + (1 << 19) + (2 << 36);

/// The tail at node 1 of block 3, in version 2.
const TAIL_AT_3: u64 = (2 << 25) + 13;

/// The entry fails, the list is made anew in the next round, and by another block.
const AGAIN: [Row; 33] = [
    Loses(110, 0, NODE_OF_1 + BIT, NODE_OF_3),
    Load(110, NODE_OF_3),
    Wins(73, 0, 2),
    Load(73, 2),
    Wins(12, EXECUTING_1, WRAPPING_AT_0),
    Load(12, WRAPPING_AT_0),
    Load(1, QUEUE_1),
    Load(65, PUT_1),
    Load(75, SEVEN_1),
    Load(66, 1),
    Load(67, 110),
    Load(68, 0),
    Load(69, NODE_OF_1),
    Wins(12, WRAPPING_AT_0, GENERATE_AGAIN),
    Load(12, GENERATE_AGAIN),
    Load(1, QUEUE_1),
    Load(4, PUT_1),
    Load(24, SEVEN_1),
    Load(21, TAIL_AT_3),
    Load(142, 0),
    Load(2, 3),
    Add(2, 3),
    Store(160, 8),
    Store(161, PUT_1),
    Store(171, SEVEN_1),
    Store(162, 1),
    Store(163, 142),
    Store(164, 0),
    Store(165, NODE_OF_4),
    Store(173, 7),
    Store(174, 0),
    Wins(12, GENERATE_AGAIN, EXECUTING_AGAIN),
    Load(12, EXECUTING_AGAIN),
];

#[test]
fn a_list_that_failed_is_made_anew_in_the_next_round(rt: HostRuntime) {
    let Some(mut play) = Play::<MsQueue>::new(rt.alloc(), TWO_AFTER_ONE) else {
        panic!(rt; "no memory")
    };
    assert_eq!(rt; first_undone(&mut play, SECOND_ROUND.as_slice()), None);
    assert_eq!(rt; play.word(46), Some(NODE_OF_2));
    assert_eq!(rt; play.walk(0, AGAIN.as_slice()), Ok(Turn::Going));
    // a take that comes by finishes it, and then is fast itself
    let rest = [
        Calls(1, ONE_TAKE),
        Ends(1, Reply::Value(8), 5, 6, Fast),
        Ends(0, Reply::Done, 0, 7, Slow),
    ];
    assert_eq!(rt; first_undone(&mut play, rest.as_slice()), None);
    assert_eq!(rt; play.word(12), Some(DONE_AGAIN));
}
