//! The lists that a generator names.

use arrayvec::ArrayVec;

/// One exchange: the word at a place, from one word to another. Both have their modified bit clear.
#[derive(Clone, Copy, Debug, Default, PartialEq, Eq)]
pub struct Entry {
    pub target: u32,
    pub from: u64,
    pub to: u64,
}

/// One or two exchanges, made in order until the first that fails.
pub type List = ArrayVec<Entry, 2>;

/// The stores of an offer, each a place and a word, behind at most ten that are the engine's own.
pub type Stores = ArrayVec<(u32, u64), 30>;
