//! A helper of a block.
ghost use Rattle.std.specs.Prelude.{◌≡◌, ◌<◌, ◌^◌, ◌↔◌, IsTrue};
ghost use Rattle.step_memory.specs.Step.{seen_of, words_after};
ghost use Rattle.cas_executor.specs.declared.fast_run.Execution.{Execution};
ghost use Rattle.cas_executor.specs.FastRuns.{IsShort};
ghost use Rattle.cas_executor.specs.SlowRuns.{slow_execution, slow_request};
ghost use Rattle.cas_executor_laws.specs.ExecRuns.{helper_fed, helper_new};

use cas_executor::{Execution, SlowRun};
use normal_traits::{Entry, List};
use std::marker::Model;
use step_memory::{Cells, Port};

/// A run of the block's list, and what came of its last step.
#[derive(Drop)]
pub(crate) struct Helper {
    run: SlowRun,
    execution: Execution,
}

impl Model for Helper {
    ghost use Rattle.std.specs.Prelude.{◌≡◌};
    ghost use Rattle.cas_executor.specs.declared.fast_run.Execution.TheVariants.{Running};
    ghost use Rattle.cas_executor.specs.SlowRuns.{IsWalking};
    ghost use Rattle.cas_executor_laws.specs.ExecRuns.{Helping};

    ghost Value = { Helping };

    ghost view = { λ h. record { walk = h.run; execution = h.execution } };

    ghost invariant = { λ h. h.execution ≡ Running → IsWalking h.run };
}

impl Default for Helper {
    /// A helper of a list of one entry that is never executed: the blank of an unused place.
    fn default() -> Helper {
        let mut list = List::new();
        list.push(Entry::default());
        Helper::new(0, list)
    }
}

impl Helper {
    /// A helper that made no step.
    pub(crate) fn new(block: u32, list: List) -> Helper
        requires block { block < 2 ^ 17 }
        requires list { IsShort list.items }
        ensures { result ≡ helper_new block list.items }
    {
        Helper {
            run: SlowRun::new(block, list),
            execution: Execution::Running,
        }
    }

    /// Whether it hasn't stopped.
    pub(crate) fn is_running(&self) -> bool
        ensures { IsTrue result ↔ self.now.execution ≡ Execution.Running }
    {
        self.execution == Execution::Running
    }

    /// Makes one step.
    pub(crate) fn step(&mut self, cells: &mut Cells) -> Execution
        requires { self.old.execution ≡ Execution.Running }
        ensures words { cells.new ≡ words_after (slow_request self.old.walk) cells.old }
        ensures helper { self.new ≡ helper_fed self.old (seen_of (slow_request self.old.walk) cells.old) }
        ensures execution { result ≡ slow_execution self.old.walk (seen_of (slow_request self.old.walk) cells.old) }
    {
        let seen = cells.apply(self.run.request());
        self.execution = self.run.feed(seen);
        self.execution
    }
}
