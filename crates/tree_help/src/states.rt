//! Where a help stands between two of its steps, with what it has loaded and still needs.

/// The state of an update word without a flag.
pub const CLEAN: u32 = 0;
/// The state of an update word that has an insertion's flag.
pub const INSERTING: u32 = 1;
/// The state of an update word that has a removal's flag.
pub const DELETING: u32 = 2;
/// The state of the update word of a node that is to go, or has gone.
pub const MARKED: u32 = 3;

/// The first note of a block: the place that is exchanged first.
pub const FIRST_PLACE: u32 = 0;
/// The word from which that place is exchanged.
pub const FIRST_WORD: u32 = 1;
/// Of a removal: the place of the child that swings past the marked node.
pub const SWING_PLACE: u32 = 2;
/// The word from which that child is exchanged.
pub const SWING_WORD: u32 = 3;
/// The place of the marked node's child that stays.
pub const STAY_PLACE: u32 = 4;

/// The flag that is helped: the place of its update word, and the word.
#[derive(Clone, Copy, Debug, PartialEq, Eq)]
pub struct Flag {
    pub place: u32,
    pub word: u64,
}

/// What became of a help at a step.
#[derive(Clone, Copy, Debug, PartialEq, Eq)]
pub enum Helping {
    /// It has steps left.
    Running,
    /// The flag's change was made.
    Finished,
    /// The change was given up, and the flag taken back.
    BackedOut,
}

/// The help of an insertion.
#[derive(Clone, Copy, Debug, PartialEq, Eq)]
pub enum HelpInsert {
    /// The place of the child is loaded next.
    ReadPlace { flag: Flag },
    /// The word that the call saw there is.
    ReadWord { flag: Flag, at: u32 },
    /// The child is exchanged next, from that word to the new node.
    Link { flag: Flag, at: u32, from: u64 },
    /// The flag is taken away next.
    Unflag { flag: Flag },
}

/// The help of a removal.
#[derive(Clone, Copy, Debug, PartialEq, Eq)]
pub enum HelpDelete {
    /// The place of the update word of the node that is to go is loaded next.
    MarkPlace {
        flag: Flag,
    },
    /// The word that the call saw there is.
    MarkWord {
        flag: Flag,
        at: u32,
    },
    /// The node is marked next.
    Mark {
        flag: Flag,
        at: u32,
        from: u64,
    },
    /// It is looked at next, whether it has this block's mark.
    Check {
        flag: Flag,
        at: u32,
    },
    /// It has: the place of the child that stays is loaded next.
    StayPlace {
        flag: Flag,
    },
    /// That child is.
    StayWord {
        flag: Flag,
        at: u32,
    },
    /// The place of the child that swings is.
    SwingPlace {
        flag: Flag,
        stays: u64,
    },
    /// The word that the call saw there is.
    SwingWord {
        flag: Flag,
        stays: u64,
        at: u32,
    },
    /// The child swings next, past the marked node to the child that stays.
    Swing {
        flag: Flag,
        stays: u64,
        at: u32,
        from: u64,
    },
    /// The flag is taken away next, behind the change or without it.
    Unflag {
        flag: Flag,
        made: bool,
    },
}

/// The help of the removal whose mark was met.
#[derive(Clone, Copy, Debug, PartialEq, Eq)]
pub enum HelpMark {
    /// The place of the child that swings is loaded next: the flag stands at its node.
    FindPlace { block: u32 },
    /// The update word of that node is.
    FindFlag { block: u32, at: u32 },
    /// The flag was found.
    Deletes { help: HelpDelete },
}

/// The help of any update word that isn't clean.
#[derive(Clone, Copy, Debug, PartialEq, Eq)]
pub enum Help {
    Insert { help: HelpInsert },
    Delete { help: HelpDelete },
    Mark { help: HelpMark },
}
