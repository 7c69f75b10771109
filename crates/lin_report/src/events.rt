//! The events of a run, from which overtaking is counted.

/// What happened to a call.
#[derive(Clone, Copy, Debug, PartialEq, Eq)]
pub enum EventKind {
    /// Its begin tick was drawn.
    Begin,
    /// Its seat entered the queue word.
    Publish,
    /// Its record became completed.
    Complete,
    /// Its end tick was drawn.
    Return,
}

/// One event, of call NUMBER of a seat, whoever made the step.
#[derive(Clone, Copy, Debug, PartialEq, Eq)]
pub struct Event {
    pub kind: EventKind,
    pub seat: u32,
    pub number: u32,
}
