//! What is so of one step of a machine, in whatever phase it is, of any structure in normalized form.
ghost use Rattle.step_knowledge.specs.Others.{OthersKnow};
ghost use Rattle.step_knowledge.specs.Moves.{StepsAreKinds, StepsKnow};

use normal_traits::Normalized;

/// Each step of each machine is one of the kinds of moves, where what the invariant of runs says of it holds.
pub fn steps_are_kinds<C: Normalized>()
    ensures { StepsAreKinds C.form }
{}

/// And after it the machine knows what it must in its next phase: of its own call, or as a helper of that of a head.
pub fn steps_know<C: Normalized>()
    ensures { StepsKnow C.form }
{}

/// What a machine knows is kept by every kind of another seat's move.
pub fn others_know<C: Normalized>()
    ensures { OthersKnow C.form }
{}
