//! The steps that help calls of the list, where nobody else makes any. The list begins at place 46; node 1 of block 1
//! has its key at place 76 and its next word at 78. A word that leads to a node has twice its reference, and one more
//! where the node that holds it is marked.
use crate::rows::Row::{self, Add, Load, Store, Wins};
use crate::words::{
    BIT, EXECUTING_1, EXECUTING_2, GENERATE_1, GENERATE_2, QUEUE_1, QUEUE_3, WRAPPING_1,
    WRAPPING_2_BOTH, YES_1, YES_2,
};

/// The op word of `add 5` as call 1.
pub const ADD_1: u64 = 3 + (1 << 4) + (5 << 20);

/// The op word of `del 5` as call 2.
pub const DEL_2: u64 = 4 + (2 << 4) + (5 << 20);

/// Leads to node 1 of block 1, in version 1.
pub const LEADS: u64 = (1 << 25) + 10;

/// The next word of the last node, marked, in version 1.
pub const MARKED: u64 = (1 << 25) + 1;

/// Leads nowhere, in version 2.
pub const UNLINKED: u64 = 2 << 25;

/// Helping call 1 of seat 0, which is `add 5`, by the first block, from the load of its record up to the removal.
pub const HELP_ADD: [Row; 44] = [
    // Record, Head, Op, Value
    Load(12, GENERATE_1),
    Load(1, QUEUE_1),
    Load(4, ADD_1),
    Load(24, 1),
    // Generate: the list is empty
    Load(46, 0),
    // LookForBlock, Claim
    Load(2, 0),
    Add(2, 0),
    // Fill: owner, op, value, length, the entry, then the node
    Store(64, 8),
    Store(65, ADD_1),
    Store(75, 1),
    Store(66, 1),
    Store(67, 46),
    Store(68, 0),
    Store(69, LEADS),
    Store(76, 5),
    Store(78, 0),
    // Advance to Executing
    Wins(12, GENERATE_1, EXECUTING_1),
    // Record, Head, Read
    Load(12, EXECUTING_1),
    Load(1, QUEUE_1),
    Load(65, ADD_1),
    Load(75, 1),
    Load(66, 1),
    Load(67, 46),
    Load(68, 0),
    Load(69, LEADS),
    // Execute
    Load(73, 0),
    Wins(46, 0, LEADS + BIT),
    Load(46, LEADS + BIT),
    Wins(73, 0, 1),
    Load(73, 1),
    Wins(46, LEADS + BIT, LEADS),
    // Advance to Wrapping
    Wins(12, EXECUTING_1, WRAPPING_1),
    // Record, Head, Read
    Load(12, WRAPPING_1),
    Load(1, QUEUE_1),
    Load(65, ADD_1),
    Load(75, 1),
    Load(66, 1),
    Load(67, 46),
    Load(68, 0),
    Load(69, LEADS),
    // the wrap-up takes no step: Advance to Completed, Record, Remove
    Wins(12, WRAPPING_1, YES_1),
    Load(12, YES_1),
    Load(1, QUEUE_1),
    Load(12, YES_1),
];

/// The same of call 2, which is `del 5`, by the second block: its list has two entries, the mark and the unlinking.
pub const HELP_DEL: [Row; 59] = [
    Load(12, GENERATE_2),
    Load(1, QUEUE_3),
    Load(4, DEL_2),
    Load(24, 2),
    // Generate: where the list begins, the node's next word, its key
    Load(46, LEADS),
    Load(78, 0),
    Load(76, 5),
    Load(2, 1),
    Add(2, 1),
    Store(96, 16),
    Store(97, DEL_2),
    Store(107, 2),
    Store(98, 2),
    Store(99, 78),
    Store(100, 0),
    Store(101, MARKED),
    Store(102, 46),
    Store(103, LEADS),
    Store(104, UNLINKED),
    Wins(12, GENERATE_2, EXECUTING_2),
    Load(12, EXECUTING_2),
    Load(1, QUEUE_3),
    Load(97, DEL_2),
    Load(107, 2),
    Load(98, 2),
    Load(99, 78),
    Load(100, 0),
    Load(101, MARKED),
    Load(102, 46),
    Load(103, LEADS),
    Load(104, UNLINKED),
    // Execute the first entry
    Load(105, 0),
    Wins(78, 0, MARKED + BIT),
    Load(78, MARKED + BIT),
    Wins(105, 0, 1),
    Load(105, 1),
    Wins(78, MARKED + BIT, MARKED),
    // and the second
    Load(106, 0),
    Wins(46, LEADS, UNLINKED + BIT),
    Load(46, UNLINKED + BIT),
    Wins(106, 0, 1),
    Load(106, 1),
    Wins(46, UNLINKED + BIT, UNLINKED),
    Wins(12, EXECUTING_2, WRAPPING_2_BOTH),
    Load(12, WRAPPING_2_BOTH),
    Load(1, QUEUE_3),
    Load(97, DEL_2),
    Load(107, 2),
    Load(98, 2),
    Load(99, 78),
    Load(100, 0),
    Load(101, MARKED),
    Load(102, 46),
    Load(103, LEADS),
    Load(104, UNLINKED),
    Wins(12, WRAPPING_2_BOTH, YES_2),
    Load(12, YES_2),
    Load(1, QUEUE_3),
    Load(12, YES_2),
];
