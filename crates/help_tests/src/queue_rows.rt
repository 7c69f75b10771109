//! The steps that help calls of the queue, where nobody else makes any. Node 1 of block 1 has its value at place 77 and
//! its next word at 78; the dummy's next word is at place 46.
use crate::rows::Row::{self, Add, Load, Store, Wins};
use crate::words::{
    BIT, DONE_1, EMPTY_3, EXECUTING_1, EXECUTING_2, GENERATE_1, GENERATE_2, GENERATE_3, NODE_OF_1,
    QUEUE_1, QUEUE_3, QUEUE_5, VALUE_2, WRAPPING_1, WRAPPING_2,
};

/// The op word of `put` as call 1.
pub const PUT_1: u64 = 1 + (1 << 4);

/// The value word of `put 7` as call 1.
pub const SEVEN_1: u64 = 1 + (7 << 16);

/// The op word of `take` as call 2.
pub const TAKE_2: u64 = 2 + (2 << 4);

/// The op word of `peek` as call 2.
pub const PEEK_2: u64 = 9 + (2 << 4);

/// The op word of `take` as call 3.
pub const TAKE_3: u64 = 2 + (3 << 4);

/// Helping call 1 of seat 0, which is `put 7`, by the first block, from the load of its record up to the removal.
pub const HELP_PUT: [Row; 47] = [
    // Record, Head, Op, Value
    Load(12, GENERATE_1),
    Load(1, QUEUE_1),
    Load(4, PUT_1),
    Load(24, SEVEN_1),
    // Generate: the tail, and the next word of its node
    Load(21, 1),
    Load(46, 0),
    // LookForBlock, Claim
    Load(2, 0),
    Add(2, 0),
    // Fill: owner, op, value, length, the entry, then the node
    Store(64, 8),
    Store(65, PUT_1),
    Store(75, SEVEN_1),
    Store(66, 1),
    Store(67, 46),
    Store(68, 0),
    Store(69, NODE_OF_1),
    Store(77, 7),
    Store(78, 0),
    // Advance to Executing
    Wins(12, GENERATE_1, EXECUTING_1),
    // Record, Head, Read
    Load(12, EXECUTING_1),
    Load(1, QUEUE_1),
    Load(65, PUT_1),
    Load(75, SEVEN_1),
    Load(66, 1),
    Load(67, 46),
    Load(68, 0),
    Load(69, NODE_OF_1),
    // Execute: state, install, look, decide, look, clear
    Load(73, 0),
    Wins(46, 0, NODE_OF_1 + BIT),
    Load(46, NODE_OF_1 + BIT),
    Wins(73, 0, 1),
    Load(73, 1),
    Wins(46, NODE_OF_1 + BIT, NODE_OF_1),
    // Advance to Wrapping
    Wins(12, EXECUTING_1, WRAPPING_1),
    // Record, Head, Read
    Load(12, WRAPPING_1),
    Load(1, QUEUE_1),
    Load(65, PUT_1),
    Load(75, SEVEN_1),
    Load(66, 1),
    Load(67, 46),
    Load(68, 0),
    Load(69, NODE_OF_1),
    // Wrap: the tail moves on
    Load(21, 1),
    Wins(21, 1, NODE_OF_1),
    // Advance to Completed
    Wins(12, WRAPPING_1, DONE_1),
    // Record, then Remove: the queue word, the record
    Load(12, DONE_1),
    Load(1, QUEUE_1),
    Load(12, DONE_1),
];

/// The same of call 2, which is `take`, by the second block.
pub const HELP_TAKE: [Row; 44] = [
    Load(12, GENERATE_2),
    Load(1, QUEUE_3),
    Load(4, TAKE_2),
    Load(24, 2),
    // Generate: the head, the tail, and the next word of the head's node
    Load(20, 1),
    Load(21, NODE_OF_1),
    Load(46, NODE_OF_1),
    Load(2, 1),
    Add(2, 1),
    // Fill: a take stores nothing of its own
    Store(96, 16),
    Store(97, TAKE_2),
    Store(107, 2),
    Store(98, 1),
    Store(99, 20),
    Store(100, 1),
    Store(101, NODE_OF_1),
    Wins(12, GENERATE_2, EXECUTING_2),
    Load(12, EXECUTING_2),
    Load(1, QUEUE_3),
    Load(97, TAKE_2),
    Load(107, 2),
    Load(98, 1),
    Load(99, 20),
    Load(100, 1),
    Load(101, NODE_OF_1),
    Load(105, 0),
    Wins(20, 1, NODE_OF_1 + BIT),
    Load(20, NODE_OF_1 + BIT),
    Wins(105, 0, 1),
    Load(105, 1),
    Wins(20, NODE_OF_1 + BIT, NODE_OF_1),
    Wins(12, EXECUTING_2, WRAPPING_2),
    Load(12, WRAPPING_2),
    Load(1, QUEUE_3),
    Load(97, TAKE_2),
    Load(107, 2),
    Load(98, 1),
    Load(99, 20),
    Load(100, 1),
    Load(101, NODE_OF_1),
    // the wrap-up takes no step
    Wins(12, WRAPPING_2, VALUE_2),
    Load(12, VALUE_2),
    Load(1, QUEUE_3),
    Load(12, VALUE_2),
];

/// The same of call 3, which is `take`, where the queue is empty by then: it is answered from the search.
pub const HELP_EMPTY_TAKE: [Row; 11] = [
    Load(12, GENERATE_3),
    Load(1, QUEUE_5),
    Load(4, TAKE_3),
    Load(24, 3),
    Load(20, NODE_OF_1),
    Load(21, NODE_OF_1),
    Load(78, 0),
    Wins(12, GENERATE_3, EMPTY_3),
    Load(12, EMPTY_3),
    Load(1, QUEUE_5),
    Load(12, EMPTY_3),
];

/// The same of call 2, which is `peek`, behind the put: it is answered from the search, with the node and no block.
pub const HELP_PEEK: [Row; 10] = [
    Load(12, GENERATE_2),
    Load(1, QUEUE_3),
    Load(4, PEEK_2),
    Load(24, 2),
    Load(20, 1),
    Load(46, NODE_OF_1),
    Wins(12, GENERATE_2, VALUE_2),
    Load(12, VALUE_2),
    Load(1, QUEUE_3),
    Load(12, VALUE_2),
];
