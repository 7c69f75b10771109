//! What a machine is doing, as the code holds it. The stores of an offer lie beside it, in room that is made once, so
//! that a step writes no more than it changes; contracts see both as one phase.
ghost use Rattle.std.specs.Prelude.{◌≡◌, ℕ};
ghost use Rattle.arrayvec.specs.ArrayVec.{ArrayVec};
ghost use Rattle.fast_slow_engine.specs.Doings.{helping_of};
ghost use Rattle.fast_slow_engine.specs.HelpTable.{helps_listed};

use crate::phases::{Announcing, Applying, Generating};
use cas_executor::{BlockRead, FastRun, SlowRun};
use help_queue::{Enter, Remove};
use lin_report::{Op, Reply};
use normal_traits::Stores;

/// What a machine is doing, and the room for the stores of its offer.
#[derive(Drop)]
pub struct Room<S, W> {
    pub doing: Doing<S, W>,
    pub stores: Stores,
}

/// A phase without its stores.
#[derive(Drop)]
pub enum Doing<S, W> {
    Idle,
    Begin,
    Look,
    Generate { search: S, at: Generating },
    Apply { run: FastRun, at: Applying },
    Wrap(W),
    Announce(Announcing),
    Enter(Enter),
    Drive,
    Help { drives: bool, aid: Aid<S, W> },
    Collect,
    Value(u32),
    End(Reply),
}

/// Helping the call of a seat, of so many.
#[derive(Drop)]
pub struct Aid<S, W> {
    pub head: u32,
    pub seats: u32,
    pub at: Aiding<S, W>,
}

/// Where helping stands.
#[derive(Drop)]
pub enum Aiding<S, W> {
    Record(Option<u16>),
    Known { record: u64, task: Task<S, W> },
    Remove(Remove),
}

/// The work on the call whose record is known, without the stores of its offer.
#[derive(Drop)]
pub enum Task<S, W> {
    Head,
    Op,
    Value(u64),
    Generate { op: Op, search: S, at: Generating },
    Fill(u32),
    Advance(u64),
    Read(BlockRead),
    Execute(SlowRun),
    Wrap(W),
}

impl<S: Drop, W: Drop> Aid<S, W> {
    /// Whether the next step is the exchange of an entry of a list.
    pub fn next_is_listed(&self) -> bool
        ensures { (stores : ArrayVec (ℕ × ℕ)) → result ≡ helps_listed (helping_of self.now.at stores) }
    {
        match &self.at {
            Aiding::Known {
                task: Task::Execute(run),
                ..
            } => run.next_is_listed(),
            _ => false,
        }
    }
}
