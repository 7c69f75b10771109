//! Entering the queue word: an owner that has announced its call publishes it.
ghost use Rattle.std.specs.Prelude.{◌≡◌, ℕ, ◌+◌, ◌%◌, ◌^◌, ◌<◌, ◌≤◌, ◌↔◌, unwrap_or};
ghost use Rattle.lin_report.specs.declared.calls.Outcome.{Outcome};
ghost use Rattle.lin_report.specs.declared.calls.Reply.TheVariants.{Done};
ghost use Rattle.step_memory.specs.declared.steps.Request.{Request};
ghost use Rattle.word_fields.specs.Queues.{queue_version};
ghost use Rattle.word_fields.specs.Records.{record_phase};
ghost use Rattle.op_record.specs.Outcomes;
ghost use Rattle.help_queue.specs.Enters.{Owner, IsOwner, SeesSeat, SeesOutcome, outcome_or_done, enter_new, enter_request, enter_fed, entering};

use crate::gather::{Gather, holds};
use lin_report::{Outcome, Reply};
use node_arena::places::QUEUE;
use op_record::outcome_of;
use std::marker::Model;
use step_memory::{Request, Seen};
use word_fields::{RecordPhase, RecordWord};

/// What has come of entering.
#[derive(Clone, Copy, Debug, PartialEq, Eq)]
pub enum Entering {
    /// There are more steps.
    Running,
    /// The queue word holds the seat.
    Entered,
    /// The call was completed before, with this outcome.
    Finished(Outcome),
}

/// Where an owner stands.
#[derive(Debug, Drop)]
pub enum EnterStage {
    /// The queue word is loaded next.
    Look,
    /// Records are loaded, and then the queue word is exchanged.
    Gathers(Gather),
}

/// The outcome of a record that was found completed: one that gives none is read as done.
pub fn outcome_or_done(word: u64) -> Outcome
    ensures { result ≡ outcome_or_done word }
{
    outcome_of(RecordWord::unpack(word)).unwrap_or(Outcome::Plain(Reply::Done))
}

/// Whether a record word is completed.
pub fn is_completed(word: u64) -> bool
    ensures { result ≡ Outcomes.is_completed (record_phase word) }
{
    RecordWord::unpack(word).phase == RecordPhase::Completed
}

/// The owner of an announced call, that enters its seat into the queue word with all seats that it finds to
/// be entered.
#[derive(Debug, Drop)]
pub struct Enter {
    seat: u32,
    seats: u32,
    stage: EnterStage,
}

impl Model for Enter {
    ghost Value = { Owner };

    ghost view = { λ e. record { seat = e.seat; seats = e.seats; stage = e.stage } };

    ghost invariant = { λ e. IsOwner (record { seat = e.seat; seats = e.seats; stage = e.stage }) };
}

impl Enter {
    /// An owner that made no step.
    pub fn new(seat: u32, seats: u32) -> Enter
        requires seat { seat < seats }
        requires few { seats ≤ 8 }
        ensures { result ≡ enter_new seat seats }
    {
        Enter {
            seat,
            seats,
            stage: EnterStage::Look,
        }
    }

    /// The next step. An exchange of the queue word raises its version by one, and keeps its seats in order
    /// before those that enter.
    pub fn request(&self) -> Request
        ensures request { result ≡ enter_request self.now }
        ensures rises { (at from to : ℕ) → result ≡ Request.Exchange at from to →
            (at ≡ QUEUE) × (queue_version to ≡ (queue_version from + 1) % 2 ^ 32) }
    {
        match &self.stage {
            EnterStage::Look => Request::Load { at: QUEUE },
            EnterStage::Gathers(gather) => {
                if gather.is_over() {
                    gather.exchange(gather.entered())
                } else {
                    gather.load()
                }
            }
        }
    }

    /// Takes what the step saw. `Entered` comes exactly where the word that was loaded or written holds the
    /// seat, and `Finished` exactly where the seat isn't in the loaded word and its own record, which this
    /// step loads, is completed.
    pub fn feed(&mut self, seen: Seen) -> Entering
        ensures owner { self.new ≡ enter_fed self.old seen }
        ensures answer { result ≡ entering self.old seen }
        ensures entered { (result ≡ Entering.Entered) ↔ SeesSeat self.old.stage self.old.seat seen }
        ensures finished { (outcome : Outcome) → (result ≡ Entering.Finished outcome) ↔ SeesOutcome self.old.stage self.old.seat seen outcome }
    {
        self.advance(seen)
    }

    /// The same, by the stage.
    fn advance(&mut self, seen: Seen) -> Entering
        ensures owner { self.new ≡ enter_fed self.old seen }
        ensures answer { result ≡ entering self.old seen }
        ensures owned { IsOwner self.old }
    {
        let before = seen.before;
        match &mut self.stage {
            EnterStage::Look => {
                if holds(before, self.seat) {
                    return Entering::Entered;
                }
                self.stage = EnterStage::Gathers(Gather::new(self.seats, before));
                Entering::Running
            }
            EnterStage::Gathers(gather) => {
                if gather.is_over() {
                    let entered = seen.won && gather.has(self.seat);
                    self.stage = EnterStage::Look;
                    if entered {
                        return Entering::Entered;
                    }
                    return Entering::Running;
                }
                let own = gather.is_at(self.seat);
                gather.take(before);
                if own && is_completed(before) {
                    return Entering::Finished(outcome_or_done(before));
                }
                Entering::Running
            }
        }
    }
}
