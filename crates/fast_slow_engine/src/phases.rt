//! The phases of a call.

use crate::help::Help;
use cas_executor::FastRun;
use help_queue::Enter;
use lin_report::Reply;
use normal_traits::Stores;

/// What the next step of a call is for. `S` is the state of a generator and `W` that of a wrap-up.
#[derive(Drop)]
pub enum Phase<S, W> {
    /// No call runs.
    Idle,
    /// Draws the begin tick.
    Begin,
    /// Looks at the help queue.
    Look,
    /// Searches for a list, and for a block where the operation needs one.
    Generate {
        search: S,
        at: Generating,
    },
    /// Makes the stores of an offer, and the exchanges of its list.
    Apply {
        run: FastRun,
        stores: Stores,
        at: Applying,
    },
    /// Reads how far the list got.
    Wrap(W),
    /// Announces the call: its next step is a store into one of the seat's words.
    Announce(Announcing),
    /// Enters the seat into the queue word.
    Enter(Enter),
    /// Loads the queue word, until it no longer holds the seat.
    Drive,
    /// Helps the call of a head, before the own search or while the own call is driven.
    Help {
        drives: bool,
        help: Help<S, W>,
    },
    /// Loads the own record, which has the outcome.
    Collect,
    /// Loads the value of the node that this reference names.
    Value(u32),
    /// Draws the end tick, with this reply.
    End(Reply),
}

/// How far a generator and its claim have come.
#[derive(Clone, Copy, Debug, PartialEq, Eq)]
pub enum Generating {
    /// The generator searches.
    Search,
    /// A list can be named: looks whether a block is left.
    LookForBlock,
    /// Claims one.
    Claim,
}

/// How far an offer has come.
#[derive(Clone, Copy, Debug, PartialEq, Eq)]
pub enum Applying {
    /// The block is filled. So many stores were made.
    Fill(u32),
    /// The list is executed.
    Execute,
}

/// The word of a seat that is stored next.
#[derive(Clone, Copy, Debug, PartialEq, Eq)]
pub enum Announcing {
    /// The value word of the call.
    Value,
    /// Its op word.
    Op,
    /// Its record word.
    Record,
}
