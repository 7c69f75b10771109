//! Removing a completed call from the head of the queue word.
ghost use Rattle.std.specs.Prelude.{◌≡◌, ℕ, ◌+◌, ◌%◌, ◌^◌, ◌<◌, ◌≤◌, ◌↔◌};
ghost use Rattle.step_memory.specs.declared.steps.Request.{Request};
ghost use Rattle.word_fields.specs.Queues.{queue_version};
ghost use Rattle.help_queue.specs.Removes.{Removal, IsRemoval, SeesGone, completes, remove_new, remove_request, remove_fed, removing};

use crate::enter::is_completed;
use crate::gather::{Gather, leads};
use node_arena::places::QUEUE;
use node_arena::record_place;
use std::marker::Model;
use step_memory::{Request, Seen};
use word_fields::RecordWord;

/// What has come of removing.
#[derive(Clone, Copy, Debug, PartialEq, Eq)]
pub enum Removing {
    /// There are more steps.
    Running,
    /// The seat isn't in the queue word with this call.
    Gone,
}

/// Where a removal stands.
#[derive(Debug, Drop)]
pub enum RemoveStage {
    /// The queue word is loaded next.
    Look,
    /// The seat was the head of this queue word, and its record is loaded next.
    Check { word: u64 },
    /// Records are loaded, and then the queue word is exchanged.
    Gathers(Gather),
}

/// Whether a record word is completed, for the call of this number.
fn completes(word: u64, number: u16) -> bool
    ensures { result ≡ completes word number }
{
    is_completed(word) && RecordWord::unpack(word).number == number
}

/// The removal of a completed call from the head of the queue word, which enters all seats that it finds to
/// be entered.
#[derive(Debug, Drop)]
pub struct Remove {
    seat: u32,
    number: u16,
    seats: u32,
    stage: RemoveStage,
}

impl Model for Remove {
    ghost Value = { Removal };

    ghost view = { λ r. record { seat = r.seat; number = r.number; seats = r.seats; stage = r.stage } };

    ghost invariant = { λ r. IsRemoval (record { seat = r.seat; number = r.number; seats = r.seats; stage = r.stage }) };
}

impl Remove {
    /// A removal of call NUMBER of a seat that made no step.
    pub fn new(seat: u32, number: u16, seats: u32) -> Remove
        requires seat { seat < seats }
        requires few { seats ≤ 8 }
        ensures { result ≡ remove_new seat number seats }
    {
        Remove {
            seat,
            number,
            seats,
            stage: RemoveStage::Look,
        }
    }

    /// The next step. An exchange of the queue word raises its version by one.
    #[inline(always)]
    pub fn request(&self) -> Request
        ensures request { result ≡ remove_request self.now }
        ensures rises { (at from to : ℕ) → result ≡ Request.Exchange at from to →
            (at ≡ QUEUE) × (queue_version to ≡ (queue_version from + 1) % 2 ^ 32) }
    {
        match &self.stage {
            RemoveStage::Look => Request::Load { at: QUEUE },
            RemoveStage::Check { .. } => Request::Load {
                at: record_place(self.seat),
            },
            RemoveStage::Gathers(gather) => {
                if gather.is_over() {
                    gather.exchange(gather.removed())
                } else {
                    gather.load()
                }
            }
        }
    }

    /// Takes what the step saw. `Gone` comes exactly where the head of the loaded queue word isn't the seat,
    /// its record isn't completed with this number, or the exchange that removes it was won.
    #[inline(always)]
    pub fn feed(&mut self, seen: Seen) -> Removing
        ensures removal { self.new ≡ remove_fed self.old seen }
        ensures answer { result ≡ removing self.old seen }
        ensures gone { (result ≡ Removing.Gone) ↔ SeesGone self.old.stage self.old seen }
    {
        self.advance(seen)
    }

    /// The same, by the stage.
    #[inline(always)]
    fn advance(&mut self, seen: Seen) -> Removing
        ensures removal { self.new ≡ remove_fed self.old seen }
        ensures answer { result ≡ removing self.old seen }
    {
        let before = seen.before;
        match &mut self.stage {
            RemoveStage::Look => {
                if !leads(before, self.seat) {
                    return Removing::Gone;
                }
                self.stage = RemoveStage::Check { word: before };
            }
            RemoveStage::Check { word } => {
                if !completes(before, self.number) {
                    return Removing::Gone;
                }
                self.stage = RemoveStage::Gathers(Gather::new(self.seats, *word));
            }
            RemoveStage::Gathers(gather) => {
                if gather.is_over() {
                    self.stage = RemoveStage::Look;
                    if seen.won {
                        return Removing::Gone;
                    }
                } else {
                    gather.take(before);
                }
            }
        }
        Removing::Running
    }
}
