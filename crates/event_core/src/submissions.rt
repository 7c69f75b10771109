//! What commands that are submitted make of a run.
ghost use Rattle.event_core.specs.Submissions.{DeedsHoldRun, IdleStepKeeps, NewHoldsRun, StepHoldsRun, SubmitHoldsRun};

use normal_traits::Normalized;

/// After any mix of commands submitted and steps a core that was new is the run of its files, as they have grown, in some
/// order of the seats: a step that is a move comes to the order, and a command that is submitted leaves it as it is.
pub fn holds_run<C: Normalized>()
    ensures new { NewHoldsRun C.form }
    ensures step { StepHoldsRun C.form }
    ensures idle { IdleStepKeeps C.form }
    ensures submit { SubmitHoldsRun C.form }
    ensures deeds { DeedsHoldRun C.form }
{}
