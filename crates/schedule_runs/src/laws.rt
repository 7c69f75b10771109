//! What a schedule, and rounds, say of a run.
ghost use Rattle.schedule_runs.specs.Orders.{NamesOneOrder, RunsInOrder};
ghost use Rattle.schedule_runs.specs.Rounds.{RoundsTakeTurns, StepsRunInOrder};

use normal_traits::Normalized;

/// A new core that is driven by a schedule is the run of its files in the order that the schedule names.
pub fn runs_in_order<C: Normalized>()
    ensures { RunsInOrder C.form }
{}

/// Whatever the files, a schedule names one order.
pub fn names_one_order<C: Normalized>()
    ensures { NamesOneOrder C.form }
{}

/// A new core after steps of its seats is the run of its files in the order of these steps.
pub fn steps_run_in_order<C: Normalized>()
    ensures { StepsRunInOrder C.form }
{}

/// In rounds step k, counted from 0, is of seat k modulo the number of seats.
pub fn rounds_take_turns()
    ensures { RoundsTakeTurns }
{}
