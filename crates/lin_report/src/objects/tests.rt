//! What the three objects answer on worked commands.
use crate::calls::{ADD, DEL, GET, HAS, MIN, Op, PEEK, PUT, REM, Reply, SET, TAKE};
use crate::map_object::MapObject;
use crate::objects::Sequential;
use crate::queue_object::FifoObject;
use crate::set_object::SetObject;
use std::test::Fail;

const ADD_FIVE: Op = Op {
    code: ADD,
    key: 5,
    value: 0,
};

const ADD_NINE: Op = Op {
    code: ADD,
    key: 9,
    value: 0,
};

const ADD_THREE: Op = Op {
    code: ADD,
    key: 3,
    value: 0,
};

const DEL_FIVE: Op = Op {
    code: DEL,
    key: 5,
    value: 0,
};

const HAS_FIVE: Op = Op {
    code: HAS,
    key: 5,
    value: 0,
};

const PUT_SEVEN: Op = Op {
    code: PUT,
    key: 0,
    value: 7,
};

const TAKE_FIRST: Op = Op {
    code: TAKE,
    key: 0,
    value: 0,
};

const PEEK_FIRST: Op = Op {
    code: PEEK,
    key: 0,
    value: 0,
};

const LEAST: Op = Op {
    code: MIN,
    key: 0,
    value: 0,
};

const SET_ONE_TO_NINE: Op = Op {
    code: SET,
    key: 1,
    value: 9,
};

const SET_ONE_TO_EIGHT: Op = Op {
    code: SET,
    key: 1,
    value: 8,
};

const GET_ONE: Op = Op {
    code: GET,
    key: 1,
    value: 0,
};

const REM_ONE: Op = Op {
    code: REM,
    key: 1,
    value: 0,
};

#[test]
fn a_set(rt: HostRuntime) -> Result<(), Fail> {
    let mut set = SetObject::new(rt.alloc());
    assert_eq!(rt; set.apply(LEAST)?, Reply::Empty);
    assert_eq!(rt; set.apply(ADD_FIVE)?, Reply::Yes);
    assert_eq!(rt; set.apply(ADD_FIVE)?, Reply::No);
    assert_eq!(rt; set.apply(HAS_FIVE)?, Reply::Yes);
    assert_eq!(rt; set.apply(ADD_NINE)?, Reply::Yes);
    assert_eq!(rt; set.apply(ADD_THREE)?, Reply::Yes);
    assert_eq!(rt; set.apply(LEAST)?, Reply::Value(3));
    assert_eq!(rt; set.apply(LEAST)?, Reply::Value(3));
    assert_eq!(rt; set.apply(DEL_FIVE)?, Reply::Yes);
    assert_eq!(rt; set.apply(DEL_FIVE)?, Reply::No);
    assert_eq!(rt; set.apply(HAS_FIVE)?, Reply::No);
    Ok(())
}

#[test]
fn a_queue(rt: HostRuntime) -> Result<(), Fail> {
    let mut queue = FifoObject::new(rt.alloc());
    assert_eq!(rt; queue.apply(PEEK_FIRST)?, Reply::Empty);
    assert_eq!(rt; queue.apply(PUT_SEVEN)?, Reply::Done);
    assert_eq!(rt; queue.apply(PEEK_FIRST)?, Reply::Value(7));
    assert_eq!(rt; queue.apply(TAKE_FIRST)?, Reply::Value(7));
    assert_eq!(rt; queue.apply(TAKE_FIRST)?, Reply::Empty);
    Ok(())
}

#[test]
fn a_map(rt: HostRuntime) -> Result<(), Fail> {
    let mut map = MapObject::new(rt.alloc());
    assert_eq!(rt; map.apply(SET_ONE_TO_NINE)?, Reply::Yes);
    assert_eq!(rt; map.apply(SET_ONE_TO_EIGHT)?, Reply::No);
    assert_eq!(rt; map.apply(GET_ONE)?, Reply::Value(9));
    assert_eq!(rt; map.apply(REM_ONE)?, Reply::Yes);
    assert_eq!(rt; map.apply(REM_ONE)?, Reply::No);
    assert_eq!(rt; map.apply(GET_ONE)?, Reply::Absent);
    Ok(())
}
