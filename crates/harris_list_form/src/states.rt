//! Where a list's searches and wrap-ups stand between two of their steps.

/// The place at which the client `list` has the beginning of its one list.
pub const LIST_START: u32 = 46;

/// What a search is for.
#[derive(Clone, Copy, Debug, PartialEq, Eq)]
pub enum Aim {
    Add,
    Del,
    Has,
}

/// What a search is for, and the key that it looks for.
#[derive(Clone, Copy, Debug, PartialEq, Eq)]
pub struct Sought {
    pub aim: Aim,
    pub key: u32,
}

/// The beginning of a list or the next word of a node of a lower key: its place, and the word seen there.
#[derive(Clone, Copy, Debug, PartialEq, Eq)]
pub struct Left {
    pub place: u32,
    pub word: u64,
}

/// Where a search stands, with what it has loaded and still needs. `cur` is a reference to a node; in a
/// `run` there are only marked nodes between the left word and it.
#[derive(Clone, Copy, Debug, PartialEq, Eq)]
pub enum ListSearch {
    /// The beginning of the list is loaded next.
    Start {
        sought: Sought,
        start: u32,
    },
    /// The next word of `cur` is loaded next.
    Next {
        sought: Sought,
        left: Left,
        run: bool,
        cur: u32,
    },
    /// The key of `cur`, which was unmarked and had this next word, is loaded next.
    Key {
        sought: Sought,
        left: Left,
        run: bool,
        cur: u32,
        next: u64,
    },
    /// The marked nodes before `cur`, or before the end where it is null, are unlinked next. The key of
    /// `cur` was found, or is above.
    Unlink {
        sought: Sought,
        left: Left,
        cur: u32,
        next: u64,
        found: bool,
    },
    /// The key is absent: `add` can name its list.
    AddReady {
        left: Left,
        cur: u32,
    },
    /// The key is that of `cur`, which has this next word: `del` can name its list.
    DelReady {
        left: Left,
        cur: u32,
        next: u64,
    },
    /// A search of the least key: the beginning of the list is loaded next.
    LeastStart {
        start: u32,
    },
    /// The next word of `cur` is loaded next. It is the first node, or in a run the one behind marked nodes.
    LeastNext {
        left: Left,
        run: bool,
        cur: u32,
    },
    /// The marked nodes before `cur`, or before the end where it is null, are unlinked next.
    LeastUnlink {
        left: Left,
        cur: u32,
    },
    /// The key of `cur`, which was the least, is loaded next.
    LeastKey {
        cur: u32,
    },
}

/// Where a wrap-up stands. It takes no step.
#[derive(Clone, Copy, Debug, PartialEq, Eq)]
pub enum ListWrap {
    /// No step is left.
    Over,
}
