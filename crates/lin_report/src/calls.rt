//! What a caller asks for and what it is told: operations, replies, and the calls of a report.

/// A structure that the program serves, by the word that names it on the command line.
#[derive(Clone, Copy, Debug, PartialEq, Eq)]
pub enum Client {
    /// Michael and Scott's queue.
    Queue,
    /// Harris's sorted list.
    List,
    /// Ellen's leaf-oriented search tree.
    Tree,
    /// An array of sorted lists.
    Buckets,
}

/// `put V`: V goes last in the queue.
pub const PUT: u8 = 1;
/// `take`: the first value leaves the queue.
pub const TAKE: u8 = 2;
/// `add K`: K joins the set.
pub const ADD: u8 = 3;
/// `del K`: K leaves the set.
pub const DEL: u8 = 4;
/// `has K`: whether K is in the set.
pub const HAS: u8 = 5;
/// `set K V`: K gets V where the map has nothing at K.
pub const SET: u8 = 6;
/// `rem K`: K leaves the map.
pub const REM: u8 = 7;
/// `get K`: the value at K.
pub const GET: u8 = 8;
/// `peek`: the first value, which stays in the queue.
pub const PEEK: u8 = 9;
/// `min`: the least key of the set, which stays in it.
pub const MIN: u8 = 10;

/// One operation: which command by its code, with the numbers that the command takes. A number that
/// it doesn't take is 0. The default has a code that no command has; it only fills unused room.
#[derive(Clone, Copy, Debug, Default, PartialEq, Eq)]
pub struct Op {
    pub code: u8,
    pub key: u32,
    pub value: u32,
}

/// What a call answers.
#[derive(Clone, Copy, Debug, PartialEq, Eq)]
pub enum Reply {
    Yes,
    No,
    Done,
    Value(u32),
    Empty,
    Absent,
    /// The call needed a block and none was left. It changed nothing.
    Exhausted,
}

/// What stands for a reply in the words of a run, where a value of 32 bits doesn't fit a record.
#[derive(Clone, Copy, Debug, PartialEq, Eq)]
pub enum Outcome {
    /// This reply.
    Plain(Reply),
    /// The value of the node that this reference names.
    ValueOf(u32),
}

/// Whether a call was made by its own seat alone, or was published for others to finish.
#[derive(Clone, Copy, Debug, Default, PartialEq, Eq)]
pub enum Path {
    #[default]
    Fast,
    Slow,
}

/// An answered call: the NUMBER-th of its seat, with its reply and the ticks at which it began and
/// ended.
#[derive(Clone, Copy, Debug, PartialEq, Eq)]
pub struct Receipt {
    pub seat: u32,
    pub number: u32,
    pub op: Op,
    pub reply: Reply,
    pub begin: u64,
    pub end: u64,
    pub path: Path,
}

/// A call that has begun and has no answer yet. The default is no call; it only fills unused room.
#[derive(Clone, Copy, Debug, Default, PartialEq, Eq)]
pub struct PendingCall {
    pub seat: u32,
    pub number: u32,
    pub op: Op,
    pub begin: u64,
    pub path: Path,
}
