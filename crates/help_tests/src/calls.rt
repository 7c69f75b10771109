//! The calls that the tests make, and the lines that they expect.
use lin_report::calls::{ADD, DEL, HAS, PEEK, PUT, TAKE};
use lin_report::{Op, Path, Receipt, Reply};

/// `put 7`
pub const PUT_7: Op = Op {
    code: PUT,
    key: 0,
    value: 7,
};

/// `put 8`
pub const PUT_8: Op = Op {
    code: PUT,
    key: 0,
    value: 8,
};

/// `put 9`
pub const PUT_9: Op = Op {
    code: PUT,
    key: 0,
    value: 9,
};

/// `put` with the greatest value
pub const PUT_GREATEST: Op = Op {
    code: PUT,
    key: 0,
    value: 4_294_967_295,
};

/// `take`
pub const ONE_TAKE: Op = Op {
    code: TAKE,
    key: 0,
    value: 0,
};

/// `peek`
pub const ONE_PEEK: Op = Op {
    code: PEEK,
    key: 0,
    value: 0,
};

/// `add 5`
pub const ADD_5: Op = Op {
    code: ADD,
    key: 5,
    value: 0,
};

/// `del 5`
pub const DEL_5: Op = Op {
    code: DEL,
    key: 5,
    value: 0,
};

/// `has 5`
pub const HAS_5: Op = Op {
    code: HAS,
    key: 5,
    value: 0,
};

/// The line of a call that was published.
pub fn slow_line(seat: u32, number: u32, op: Op, reply: Reply, begin: u64, end: u64) -> Receipt {
    Receipt {
        seat,
        number,
        op,
        reply,
        begin,
        end,
        path: Path::Slow,
    }
}
