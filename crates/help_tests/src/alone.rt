//! One seat alone whose calls are all published: each phase of the slow path, step by step.
use crate::calls::{ADD_5, DEL_5, ONE_PEEK, ONE_TAKE, PUT_7, slow_line};
use crate::list_rows::{ADD_1, DEL_2, HELP_ADD, HELP_DEL};
use crate::play::Play;
use crate::queue_rows::{
    HELP_EMPTY_TAKE, HELP_PEEK, HELP_PUT, HELP_TAKE, PEEK_2, PUT_1, SEVEN_1, TAKE_2, TAKE_3,
};
use crate::rows::Row::{self, Add, Load, Store, Wins};
use crate::words::{
    DONE_1, EMPTY_3, GENERATE_1, GENERATE_2, GENERATE_3, QUEUE_1, QUEUE_2, QUEUE_3, QUEUE_4,
    QUEUE_5, QUEUE_6, VALUE_2, YES_1, YES_2,
};
use fast_slow_engine::{Setup, Turn};
use harris_list::HarrisList;
use lin_report::{Path, Reply};
use ms_queue::MsQueue;

/// One seat, whose calls are published at once.
const ALONE: Setup = Setup {
    seats: 1,
    cap: 8,
    limit: 0,
};

/// The steps of a call before it is helped: the begin tick, the look, value word, op word and record word, and the
/// entering, which ends with the first look of the drive.
fn before(tick: u64, value: u64, op: u64, record: u64, queue: u64, entered: u64) -> [Row; 9] {
    [
        Add(0, tick),
        Load(1, queue),
        Store(24, value),
        Store(4, op),
        Store(12, record),
        Load(1, queue),
        Load(12, record),
        Wins(1, queue, entered),
        Load(1, entered),
    ]
}

/// The steps of a call after it was helped: its seat is removed, is no longer found there, and collects.
fn behind(record: u64, queue: u64, removed: u64) -> [Row; 3] {
    [Wins(1, queue, removed), Load(1, removed), Load(12, record)]
}

#[test]
fn put_and_take_go_through_each_phase(rt: HostRuntime) {
    let Some(mut play) = Play::<MsQueue>::new(rt.alloc(), ALONE) else {
        panic!(rt; "no memory")
    };
    assert!(rt; play.begin(0, PUT_7));
    let first = before(0, SEVEN_1, PUT_1, GENERATE_1, 0, QUEUE_1);
    assert_eq!(rt; play.walk(0, first.as_slice()), Ok(Turn::Going));
    assert_eq!(rt; play.walk(0, HELP_PUT.as_slice()), Ok(Turn::Going));
    let last = behind(DONE_1, QUEUE_1, QUEUE_2);
    assert_eq!(rt; play.walk(0, last.as_slice()), Ok(Turn::Going));
    let done = Turn::Returned(slow_line(0, 1, PUT_7, Reply::Done, 0, 1));
    assert_eq!(rt; play.walk(0, [Add(0, 1)].as_slice()), Ok(done));

    assert!(rt; play.begin(0, ONE_TAKE));
    let first = before(2, 2, TAKE_2, GENERATE_2, QUEUE_2, QUEUE_3);
    assert_eq!(rt; play.walk(0, first.as_slice()), Ok(Turn::Going));
    assert_eq!(rt; play.walk(0, HELP_TAKE.as_slice()), Ok(Turn::Going));
    let last = behind(VALUE_2, QUEUE_3, QUEUE_4);
    assert_eq!(rt; play.walk(0, last.as_slice()), Ok(Turn::Going));
    let taken = Turn::Returned(slow_line(0, 2, ONE_TAKE, Reply::Value(7), 2, 3));
    assert_eq!(rt;
        play.walk(0, [Load(77, 7), Add(0, 3)].as_slice()),
        Ok(taken)
    );

    assert!(rt; play.begin(0, ONE_TAKE));
    let first = before(4, 3, TAKE_3, GENERATE_3, QUEUE_4, QUEUE_5);
    assert_eq!(rt; play.walk(0, first.as_slice()), Ok(Turn::Going));
    assert_eq!(rt; play.walk(0, HELP_EMPTY_TAKE.as_slice()), Ok(Turn::Going));
    let last = behind(EMPTY_3, QUEUE_5, QUEUE_6);
    assert_eq!(rt; play.walk(0, last.as_slice()), Ok(Turn::Going));
    let empty = Turn::Returned(slow_line(0, 3, ONE_TAKE, Reply::Empty, 4, 5));
    assert_eq!(rt; play.walk(0, [Add(0, 5)].as_slice()), Ok(empty));
    assert_eq!(rt; play.step(0), None);
}

#[test]
fn a_peek_is_answered_from_its_search(rt: HostRuntime) {
    let Some(mut play) = Play::<MsQueue>::new(rt.alloc(), ALONE) else {
        panic!(rt; "no memory")
    };
    assert!(rt; play.begin(0, PUT_7) && play.finish(0).is_some());
    assert!(rt; play.begin(0, ONE_PEEK));
    let first = before(2, 2, PEEK_2, GENERATE_2, QUEUE_2, QUEUE_3);
    assert_eq!(rt; play.walk(0, first.as_slice()), Ok(Turn::Going));
    assert_eq!(rt; play.walk(0, HELP_PEEK.as_slice()), Ok(Turn::Going));
    let last = behind(VALUE_2, QUEUE_3, QUEUE_4);
    assert_eq!(rt; play.walk(0, last.as_slice()), Ok(Turn::Going));
    let told = Turn::Returned(slow_line(0, 2, ONE_PEEK, Reply::Value(7), 2, 3));
    assert_eq!(rt; play.walk(0, [Load(77, 7), Add(0, 3)].as_slice()), Ok(told));
    assert_eq!(rt; play.step(0), None);
}

#[test]
fn add_and_del_go_through_each_phase(rt: HostRuntime) {
    let Some(mut play) = Play::<HarrisList>::new(rt.alloc(), ALONE) else {
        panic!(rt; "no memory")
    };
    assert!(rt; play.begin(0, ADD_5));
    let first = before(0, 1, ADD_1, GENERATE_1, 0, QUEUE_1);
    assert_eq!(rt; play.walk(0, first.as_slice()), Ok(Turn::Going));
    assert_eq!(rt; play.walk(0, HELP_ADD.as_slice()), Ok(Turn::Going));
    let last = behind(YES_1, QUEUE_1, QUEUE_2);
    assert_eq!(rt; play.walk(0, last.as_slice()), Ok(Turn::Going));
    let added = Turn::Returned(slow_line(0, 1, ADD_5, Reply::Yes, 0, 1));
    assert_eq!(rt; play.walk(0, [Add(0, 1)].as_slice()), Ok(added));

    assert!(rt; play.begin(0, DEL_5));
    let first = before(2, 2, DEL_2, GENERATE_2, QUEUE_2, QUEUE_3);
    assert_eq!(rt; play.walk(0, first.as_slice()), Ok(Turn::Going));
    assert_eq!(rt; play.walk(0, HELP_DEL.as_slice()), Ok(Turn::Going));
    let last = behind(YES_2, QUEUE_3, QUEUE_4);
    assert_eq!(rt; play.walk(0, last.as_slice()), Ok(Turn::Going));
    let deleted = Turn::Returned(slow_line(0, 2, DEL_5, Reply::Yes, 2, 3));
    assert_eq!(rt; play.walk(0, [Add(0, 3)].as_slice()), Ok(deleted));
}

#[test]
fn a_call_is_on_its_slow_path_once_its_record_is_stored(rt: HostRuntime) {
    let Some(mut play) = Play::<MsQueue>::new(rt.alloc(), ALONE) else {
        panic!(rt; "no memory")
    };
    assert!(rt; play.begin(0, PUT_7));
    for path in [
        None,
        Some(Path::Fast),
        Some(Path::Fast),
        Some(Path::Fast),
        Some(Path::Fast),
        Some(Path::Slow),
    ] {
        assert_eq!(rt; play.path(0), path);
        play.step(0);
    }
}
