//! Executing the list of a block, by any number of helpers at once.
ghost use Rattle.std.specs.Prelude.{◌≡◌, ℕ, ◌+◌, ◌<◌, ◌^◌, ◌==◌, ◌↔◌, if◌then◌else◌, length, slice_get};
ghost use Rattle.word_fields.specs.Versioned.{marked_word};
ghost use Rattle.step_memory.specs.declared.steps.Request.{Request};
ghost use Rattle.cas_executor.specs.FastRuns.{IsShort};
ghost use Rattle.cas_executor.specs.SlowRuns.{SlowWalk, IsWalking, StopsAt, at_step, decided, entry_state, installs, looked, past_entry, slow_execution, slow_fed, slow_request, state_place, state_word, step_after_decision, step_after_look, step_after_target};

use crate::fast_run::Execution;
use node_arena::block_place;
use node_arena::places::STATE_FIELD;
use normal_traits::{Entry, List};
use std::marker::Model;
use step_memory::{Request, Seen};
use word_fields::VersionedWord;

/// What has been decided of an entry.
#[derive(Clone, Copy, Debug, PartialEq, Eq)]
pub enum EntryState {
    /// Nothing yet.
    Pending,
    /// It took effect.
    Succeeded,
    /// It didn't take effect, and never will.
    Failed,
}

impl EntryState {
    /// The state that a word says. A word above 2 is taken as that of an entry that failed.
    pub fn of_word(word: u64) -> EntryState
        ensures { result ≡ entry_state word }
    {
        match word {
            0 => EntryState::Pending,
            1 => EntryState::Succeeded,
            _ => EntryState::Failed,
        }
    }

    /// The word of the state.
    pub fn word(self) -> u64
        ensures word { result ≡ state_word self }
        ensures read_back { entry_state result ≡ self }
    {
        match self {
            EntryState::Pending => 0,
            EntryState::Succeeded => 1,
            EntryState::Failed => 2,
        }
    }
}

/// The next step on an entry.
#[derive(Clone, Copy, Debug, PartialEq, Eq)]
pub enum SlowStep {
    /// Loads its state.
    LoadState,
    /// Exchanges its target from `from` to `to` with the modified bit set: its listed exchange.
    Install,
    /// Loads its target, to see whether the entry took effect.
    LoadTarget,
    /// Decides that it succeeded, unless it is decided.
    Succeed,
    /// Decides that it failed, unless it is decided.
    Fail,
    /// Loads its state, which is decided.
    LoadDecision,
    /// Clears the bit of its target.
    Clear,
}

/// The list of a block, executed by a helper. Each helper takes every step as if it were alone, and finds
/// what the others have done.
#[derive(Debug, Drop)]
pub struct SlowRun {
    block: u32,
    list: List,
    next: u32,
    step: SlowStep,
}

impl Model for SlowRun {
    ghost Value = { SlowWalk };

    ghost view = { λ r. record { block = r.block; entries = r.list.items; next = r.next; step = r.step } };
}

impl SlowRun {
    /// The run of a block's list that made no step yet.
    pub fn new(block: u32, list: List) -> SlowRun
        requires block { block < 2 ^ 17 }
        requires list { IsShort list.items }
        ensures run { result ≡ record { block = block; entries = list.items; next = 0; step = SlowStep.LoadState } }
        ensures walking { IsWalking result }
    {
        SlowRun {
            block,
            list,
            next: 0,
            step: SlowStep::LoadState,
        }
    }

    /// The place of the state of the entry that the run is at.
    fn state_place(&self) -> u32
        requires { IsWalking self.now }
        ensures { result ≡ state_place self.now.block self.now.next }
    {
        block_place(self.block, STATE_FIELD + self.next)
    }

    /// The exchange of that state from pending.
    fn decide(&self, state: EntryState) -> Request
        requires { IsWalking self.now }
        ensures { result ≡ Request.Exchange (state_place self.now.block self.now.next) (state_word EntryState.Pending) (state_word state) }
    {
        Request::Exchange {
            at: self.state_place(),
            from: EntryState::Pending.word(),
            to: state.word(),
        }
    }

    /// The next step.
    #[inline(always)]
    pub fn request(&self) -> Request
        requires { IsWalking self.now }
        ensures { result ≡ slow_request self.now }
    {
        let entry = self.list[self.next as usize];
        match self.step {
            SlowStep::LoadState | SlowStep::LoadDecision => Request::Load {
                at: self.state_place(),
            },
            SlowStep::Install => Request::Exchange {
                at: entry.target,
                from: entry.from,
                to: marked(entry),
            },
            SlowStep::LoadTarget => Request::Load { at: entry.target },
            SlowStep::Succeed => self.decide(EntryState::Succeeded),
            SlowStep::Fail => self.decide(EntryState::Failed),
            SlowStep::Clear => Request::Exchange {
                at: entry.target,
                from: marked(entry),
                to: entry.to,
            },
        }
    }

    /// Whether the next step is the exchange of an entry's target from `from`.
    pub fn next_is_listed(&self) -> bool
        ensures { result ≡ installs self.now.step }
    {
        self.step == SlowStep::Install
    }

    /// Takes what the step saw, also where no run would show it. The run stops exactly at an entry that is
    /// seen to have failed, or to be undecided still after this helper tried to decide it, which no run shows,
    /// and at the length behind the last one.
    #[inline(always)]
    pub fn feed(&mut self, seen: Seen) -> Execution
        requires { IsWalking self.old }
        ensures execution { result ≡ slow_execution self.old seen }
        ensures run { self.new ≡ slow_fed self.old seen }
        ensures walking { result ≡ Execution.Running → IsWalking self.new }
        ensures stopped { (stop : ℕ) → result ≡ Execution.Stopped stop ↔ StopsAt self.old seen stop }
    {
        match self.step {
            SlowStep::LoadState => self.look(EntryState::of_word(seen.before)),
            SlowStep::Install => self.go_on(SlowStep::LoadTarget),
            SlowStep::LoadTarget => self.judge(seen.before),
            SlowStep::Succeed | SlowStep::Fail => self.go_on(SlowStep::LoadDecision),
            SlowStep::LoadDecision => self.obey(EntryState::of_word(seen.before)),
            SlowStep::Clear => self.pass(),
        }
    }

    /// Goes on with another step on the entry.
    fn go_on(&mut self, step: SlowStep) -> Execution
        ensures execution { result ≡ Execution.Running }
        ensures run { self.new ≡ record self.old { step = step } }
    {
        self.step = step;
        Execution::Running
    }

    /// The entry's state was loaded at first.
    fn look(&mut self, state: EntryState) -> Execution
        requires { self.old.step ≡ SlowStep.LoadState }
        ensures execution { result ≡ looked state self.old.next }
        ensures run { self.new ≡ at_step (step_after_look state) self.old }
    {
        match state {
            EntryState::Pending => self.go_on(SlowStep::Install),
            EntryState::Succeeded => self.go_on(SlowStep::Clear),
            EntryState::Failed => Execution::Stopped(self.next),
        }
    }

    /// The entry's target was loaded: it took effect where the target is `to` with its bit set.
    fn judge(&mut self, word: u64) -> Execution
        requires { IsWalking self.old }
        ensures execution { result ≡ Execution.Running }
        ensures run { self.new ≡ at_step (step_after_target (slice_get self.old.entries self.old.next) word) self.old }
    {
        let entry = self.list[self.next as usize];
        if word == marked(entry) {
            self.go_on(SlowStep::Succeed)
        } else {
            self.go_on(SlowStep::Fail)
        }
    }

    /// The entry's state was loaded after it had been decided.
    fn obey(&mut self, state: EntryState) -> Execution
        requires { self.old.step ≡ SlowStep.LoadDecision }
        ensures execution { result ≡ decided state self.old.next }
        ensures run { self.new ≡ at_step (step_after_decision state) self.old }
    {
        match state {
            EntryState::Succeeded => self.go_on(SlowStep::Clear),
            EntryState::Pending | EntryState::Failed => Execution::Stopped(self.next),
        }
    }

    /// The entry's bit is clear: goes on with the next entry, or stops behind the last.
    fn pass(&mut self) -> Execution
        requires { IsWalking self.old }
        ensures execution { result ≡ (if self.old.next + 1 == length self.old.entries then Execution.Stopped (length self.old.entries) else Execution.Running) }
        ensures run { self.new ≡ past_entry self.old }
    {
        self.next += 1;
        self.step = SlowStep::LoadState;
        if self.next as usize == self.list.len() {
            Execution::Stopped(self.next)
        } else {
            Execution::Running
        }
    }
}

/// The word that an entry's listed exchange writes: `to` with its bit set.
fn marked(entry: Entry) -> u64
    ensures { result ≡ marked_word entry.to }
{
    VersionedWord::unpack(entry.to).marked().pack()
}
