//! Where the stack's searches and wrap-ups stand between two of their steps, and its root.

/// The place of the top, the one root.
pub const TOP: u32 = 20;

/// Where a search stands, with the words that it has loaded and still needs.
#[derive(Clone, Copy, Debug, PartialEq, Eq)]
pub enum StackSearch {
    /// `put`: the top is loaded next.
    PutTop,
    /// `put`: the top was this word.
    PutReady { top: u64 },
    /// `take`: the top is loaded next.
    TakeTop,
    /// `take`: the next word of the top's node is loaded next.
    TakeNext { top: u64 },
    /// `take`: the top's node has this next word.
    TakeReady { top: u64, next: u64 },
}

/// Where a wrap-up stands.
#[derive(Clone, Copy, Debug, PartialEq, Eq)]
pub enum StackWrap {
    /// No step is left: the list's one entry tells all.
    Over,
}
