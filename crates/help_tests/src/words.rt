//! The words of the tables, each by the bits of its fields.

/// The bit of a versioned word that a list in execution sets.
pub const BIT: u64 = 1 << 24;

/// A versioned word that names node 1 of block 1, in version 1; so do all names of nodes here.
pub const NODE_OF_1: u64 = (1 << 25) + 5;

/// Node 1 of block 2.
pub const NODE_OF_2: u64 = (1 << 25) + 9;

/// Node 1 of block 3.
pub const NODE_OF_3: u64 = (1 << 25) + 13;

/// Node 1 of block 4.
pub const NODE_OF_4: u64 = (1 << 25) + 17;

/// The record of call 1 as it is announced.
pub const GENERATE_1: u64 = 1 + (1 << 3);

/// Call 1 with its list in block 1.
pub const EXECUTING_1: u64 = 2 + (1 << 3) + (1 << 36);

/// Call 1 with a list of one entry in block 1 that took effect.
pub const WRAPPING_1: u64 = 3 + (1 << 3) + (1 << 36) + (1 << 53);

/// Call 1 with its list in block 2.
pub const EXECUTING_1_IN_2: u64 = 2 + (1 << 3) + (2 << 36);

/// Call 1 with a list of one entry in block 2 that took effect.
pub const WRAPPING_1_IN_2: u64 = 3 + (1 << 3) + (2 << 36) + (1 << 53);

/// Call 1 done.
pub const DONE_1: u64 = 4 + (1 << 3) + (2 << 36);

/// Call 1 answered yes.
pub const YES_1: u64 = 4 + (1 << 3);

/// Call 1 answered exhausted.
pub const EXHAUSTED_1: u64 = 4 + (1 << 3) + (6 << 36);

/// The record of call 2 as it is announced.
pub const GENERATE_2: u64 = 1 + (2 << 3);

/// Call 2 with its list in block 2.
pub const EXECUTING_2: u64 = 2 + (2 << 3) + (2 << 36);

/// Call 2 with a list of one entry in block 2 that took effect.
pub const WRAPPING_2: u64 = 3 + (2 << 3) + (2 << 36) + (1 << 53);

/// Call 2 with a list of two entries in block 2 that took effect.
pub const WRAPPING_2_BOTH: u64 = 3 + (2 << 3) + (2 << 36) + (2 << 53);

/// Call 2 answered with the value of node 1 of block 1.
pub const VALUE_2: u64 = 4 + (2 << 3) + ((3 + (5 << 3)) << 36);

/// Call 2 answered yes.
pub const YES_2: u64 = 4 + (2 << 3);

/// Call 2 answered exhausted.
pub const EXHAUSTED_2: u64 = 4 + (2 << 3) + (6 << 36);

/// The record of call 3 as it is announced.
pub const GENERATE_3: u64 = 1 + (3 << 3);

/// Call 3 answered empty.
pub const EMPTY_3: u64 = 4 + (3 << 3) + (4 << 36);

/// The queue word with seat 0 alone in version 1.
pub const QUEUE_1: u64 = (1 << 32) + 1;

/// The empty queue word in version 2.
pub const QUEUE_2: u64 = 2 << 32;

/// The queue word with seat 0 alone in version 3.
pub const QUEUE_3: u64 = (3 << 32) + 1;

/// The empty queue word in version 4.
pub const QUEUE_4: u64 = 4 << 32;

/// The queue word with seat 0 alone in version 5.
pub const QUEUE_5: u64 = (5 << 32) + 1;

/// The empty queue word in version 6.
pub const QUEUE_6: u64 = 6 << 32;

/// The queue word with all eight seats, seat 0 at its head, in version 1.
pub const QUEUE_OF_EIGHT: u64 = (1 << 32) + 2_271_560_481;
