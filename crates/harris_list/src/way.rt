//! Where a search stands on its way through the list, in fields that its steps change in place.

use harris_list_form::{Left, Sought};

/// What a search loads or exchanges next, or that it can name a list.
#[derive(Clone, Copy)]
pub enum Stage {
    /// The beginning of the list is loaded.
    Start,
    /// The next word of `cur` is loaded.
    Next,
    /// The key of `cur` is loaded.
    Key,
    /// The marked nodes before `cur` are unlinked.
    Unlink,
    /// The key is absent: an `add` can name its list.
    AddReady,
    /// The key is that of `cur`: a `del` can name its list.
    DelReady,
    /// On the way to the least key the beginning of the list is loaded.
    LeastStart,
    /// The next word of `cur` is loaded.
    LeastNext,
    /// The marked nodes before `cur` are unlinked.
    LeastUnlink,
    /// The key of `cur`, which was the least, is loaded.
    LeastKey,
}

/// Where a search stands. Which fields say something depends on the stage (`specs/Ways.antt`); at the start
/// of the list it is the place of the left word alone.
#[derive(Clone, Copy)]
pub struct Way {
    pub sought: Sought,
    pub left: Left,
    pub run: bool,
    pub cur: u32,
    pub next: u64,
    pub found: bool,
    pub stage: Stage,
}
