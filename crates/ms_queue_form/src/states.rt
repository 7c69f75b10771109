//! Where the queue's searches and wrap-ups stand between two of their steps.

/// Where a search stands, with the words that it has loaded and still needs.
#[derive(Clone, Copy, Debug, PartialEq, Eq)]
pub enum QueueSearch {
    /// `put`: the tail is loaded next.
    PutTail,
    /// `put`: the next word of the tail's node is loaded next.
    PutNext { tail: u64 },
    /// `put`: the tail is moved to the node behind it.
    PutHelp { tail: u64, next: u64 },
    /// `put`: the tail's node was the last, with this next word.
    PutReady { tail: u64, next: u64 },
    /// `take`: the head is loaded next.
    TakeHead,
    /// `take`: the tail is loaded next.
    TakeTail { head: u64 },
    /// `take`: the next word of the head's node is loaded next.
    TakeNext { head: u64, tail: u64 },
    /// `take`: head and tail name one node, so the tail is moved to the node behind it.
    TakeHelp { tail: u64, next: u64 },
    /// `take`: the head's node has this next word, and the tail is behind it.
    TakeReady { head: u64, next: u64 },
    /// `peek`: the head is loaded next.
    PeekHead,
    /// `peek`: the next word of the head's node is loaded next, and tells the answer.
    PeekNext { head: u64 },
}

/// Where a wrap-up stands.
#[derive(Clone, Copy, Debug, PartialEq, Eq)]
pub enum QueueWrap {
    /// No step is left.
    Over,
    /// `put`: the tail is loaded next. The node was linked at this place, by this word.
    Tail { target: u32, to: u64 },
    /// `put`: the tail still names the node before the linked one, and is moved on.
    Swing { tail: u64, to: u64 },
}
