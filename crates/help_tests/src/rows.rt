//! Steps as a table has them: what is asked for, and what the word was.
use step_memory::{Request, Seen};

/// A step on one word, with all that it shows.
#[derive(Clone, Copy, Debug, PartialEq, Eq)]
pub enum Row {
    /// Loads the word at a place, which is this.
    Load(u32, u64),
    /// Stores this word at a place.
    Store(u32, u64),
    /// Adds 1 to the word at a place, which was this.
    Add(u32, u64),
    /// Exchanges the word at a place from one to another, and wins.
    Wins(u32, u64, u64),
    /// Would exchange the word at a place from one to another, and finds a third.
    Loses(u32, u64, u64, u64),
}

impl Row {
    /// The request of the step.
    pub fn request(self) -> Request {
        match self {
            Row::Load(at, _) => Request::Load { at },
            Row::Store(at, value) => Request::Store { at, value },
            Row::Add(at, _) => Request::Add { at, by: 1 },
            Row::Wins(at, from, to) | Row::Loses(at, from, to, _) => {
                Request::Exchange { at, from, to }
            }
        }
    }

    /// What the step shows.
    pub fn seen(self) -> Seen {
        let (before, won) = match self {
            Row::Load(_, word) | Row::Add(_, word) | Row::Wins(_, word, _) => (word, true),
            Row::Store(_, _) => (0, true),
            Row::Loses(_, _, _, found) => (found, false),
        };
        Seen { before, won }
    }

    /// The place of the step, and the word there after it.
    pub fn leaves(self) -> (u32, u64) {
        match self {
            Row::Load(at, word) | Row::Store(at, word) | Row::Wins(at, _, word) => (at, word),
            Row::Add(at, word) => (at, word.wrapping_add(1)),
            Row::Loses(at, _, _, found) => (at, found),
        }
    }
}
