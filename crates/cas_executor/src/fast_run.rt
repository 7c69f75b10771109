//! Executing a list by its own seat.
ghost use Rattle.std.specs.Prelude.{◌≡◌, ℕ, ◌+◌, ◌<◌, ◌↔◌, ◌⊎◌, true, false, IsTrue, length, slice_get, Some};
ghost use Rattle.step_memory.specs.declared.steps.Request.{Request};
ghost use Rattle.normal_traits.specs.declared.lists.Entry.{Entry};
ghost use Rattle.cas_executor.specs.FastRuns.{FastWalk, IsShort, IsRunning, fast_request, fast_execution, fast_fed};

use normal_traits::List;
use std::marker::Model;
use step_memory::{Request, Seen};

/// What has come of executing a list.
#[derive(Clone, Copy, Debug, PartialEq, Eq)]
pub enum Execution {
    /// There are more steps.
    Running,
    /// The list stopped at this entry, the first that failed, or at its length where none did.
    Stopped(u32),
}

/// The exchanges of a list, made in order until the first that is lost.
#[derive(Debug, Drop)]
pub struct FastRun {
    list: List,
    next: u32,
}

impl Model for FastRun {
    ghost Value = { FastWalk };

    ghost view = { λ r. record { entries = r.list.items; next = r.next } };
}

impl FastRun {
    /// The run of a list that made no exchange yet.
    pub fn new(list: List) -> FastRun
        requires { IsShort list.items }
        ensures run { result ≡ record { entries = list.items; next = 0 } }
        ensures running { IsRunning result }
    {
        FastRun { list, next: 0 }
    }

    /// The list.
    pub fn list(&self) -> &List
        ensures { result.now.items ≡ self.now.entries }
    {
        &self.list
    }

    /// The next exchange: that of an entry's target from `from` to `to`.
    pub fn request(&self) -> Request
        requires { IsRunning self.now }
        ensures request { result ≡ fast_request self.now }
        ensures entry { (entry : Entry) → slice_get self.now.entries self.now.next ≡ Some entry → result ≡ Request.Exchange entry.target entry.from entry.to }
    {
        let entry = self.list[self.next as usize];
        Request::Exchange {
            at: entry.target,
            from: entry.from,
            to: entry.to,
        }
    }

    /// Whether the next request is the exchange of an entry: always.
    pub fn next_is_listed(&self) -> bool
        requires { IsRunning self.now }
        ensures { result ≡ true }
    {
        true
    }

    /// Takes what the exchange saw. The run stops exactly where it was lost, and at the length where the
    /// last one was won.
    pub fn feed(&mut self, seen: Seen) -> Execution
        requires { IsRunning self.old }
        ensures execution { result ≡ fast_execution self.old seen }
        ensures run { self.new ≡ fast_fed self.old seen }
        ensures running { result ≡ Execution.Running → IsRunning self.new }
        ensures stopped { (stop : ℕ) → result ≡ Execution.Stopped stop
            ↔ (((seen.won ≡ false) × (stop ≡ self.old.next)) ⊎ ((seen.won ≡ true) × (self.old.next + 1 ≡ length self.old.entries) × (stop ≡ length self.old.entries))) }
    {
        if !seen.won {
            return Execution::Stopped(self.next);
        }
        self.next += 1;
        if self.next as usize == self.list.len() {
            Execution::Stopped(self.next)
        } else {
            Execution::Running
        }
    }
}
