//! Helping the call of a head, whoever made it.
use crate::phases::Generating;
use cas_executor::{BlockRead, SlowRun};
use help_queue::Remove;
use lin_report::Op;
use normal_traits::Stores;

/// Helping the call of a seat, of so many.
#[derive(Drop)]
pub struct Help<S, W> {
    pub head: u32,
    pub seats: u32,
    pub at: Helping<S, W>,
}

/// Where helping stands.
#[derive(Drop)]
pub enum Helping<S, W> {
    /// The record is loaded next; once the number of the call is known, another call's record ends helping.
    Record(Option<u16>),
    /// The record was this word, which is open.
    Known { record: u64, work: Work<S, W> },
    /// The completed call is removed from the queue word.
    Remove(Remove),
}

/// What the next step does for the call whose record is known.
#[derive(Drop)]
pub enum Work<S, W> {
    /// Looks whether the seat is still the head.
    Head,
    /// Loads the op word of the call.
    Op,
    /// The op word was this; loads the value word.
    Value(u64),
    /// Searches for a list, and for a block.
    Generate { op: Op, search: S, at: Generating },
    /// Fills the block in hand. So many stores were made.
    Fill { stores: Stores, made: u32 },
    /// Exchanges the record to this word.
    Advance(u64),
    /// Reads the block that the record names.
    Read(BlockRead),
    /// Executes its list.
    Execute(SlowRun),
    /// Wraps its list up.
    Wrap(W),
}

/// What a step of the work has come to.
#[derive(Clone, Copy, Debug, PartialEq, Eq)]
pub enum WorkTurn {
    /// There is more to do.
    Going,
    /// The record is loaded again.
    Again,
    /// The seat isn't the head with this call.
    Over,
}
