//! What is so of the moves of runs.
ghost use Rattle.run_knowledge.specs.Unannounced.{MoversBefore};
ghost use Rattle.run_knowledge.specs.Kept.{MovesAreKinds};
ghost use Rattle.run_knowledge.specs.InMemory.{MovesStep};

use normal_traits::Normalized;

/// Each move of a run is the step of its phase, where its request is inside the memory.
pub fn moves_step<C: Normalized>()
    ensures { MovesStep C.form }
{}

/// Until a call is announced the record of its seat is closed, and of an earlier call.
pub fn movers_before<C: Normalized>()
    ensures { MoversBefore C.form }
{}

/// Each move of a run of which the invariant holds is one of the kinds of moves, for every client with its laws.
pub fn moves_are_kinds<C: Normalized>()
    ensures { MovesAreKinds C.form }
{}
