//! Where a search of the tree stands between two of its steps. An internal node is named by its block.

use lin_report::Op;
use tree_help::Help;

/// A node that was passed: its update word, which child was taken, and that child's word.
#[derive(Clone, Copy, Debug, PartialEq, Eq)]
pub struct Passed {
    pub node: u32,
    pub update: u64,
    pub left: bool,
    pub child: u64,
}

/// Where a search stands, with what it has loaded and still needs. `above` is the node passed before the one
/// that the search is at; there is none at the root.
#[derive(Clone, Copy, Debug, PartialEq, Eq)]
pub enum TreeSearch {
    /// The update word of the node is loaded next.
    AtUpdate {
        op: Op,
        above: Option<Passed>,
        node: u32,
    },
    /// Its key is.
    AtKey {
        op: Op,
        above: Option<Passed>,
        node: u32,
        update: u64,
    },
    /// Its child is, the left one where the key that is looked for is below the node's.
    AtChild {
        op: Op,
        above: Option<Passed>,
        node: u32,
        update: u64,
        key: u64,
    },
    /// The last node led to a leaf: its key is loaded next.
    AtLeaf {
        op: Op,
        above: Option<Passed>,
        last: Passed,
    },
    /// The call only observes: the last node's update word is loaded again.
    Again {
        op: Op,
        last: Passed,
        is: bool,
    },
    /// `set` of another key than the leaf's: the leaf's value is loaded next.
    AtValue {
        last: Passed,
        key: u64,
    },
    /// `set` can name its list, with the leaf's key and value.
    SetReady {
        last: Passed,
        key: u64,
        value: u64,
    },
    /// `rem` can.
    RemReady {
        above: Passed,
        last: Passed,
    },
    /// The flag of another call is helped, and then the search gives up.
    Helps {
        help: Help,
    },
}
