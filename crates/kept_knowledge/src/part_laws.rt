//! What is so after each move of a run of which the invariant holds.
ghost use Rattle.kept_knowledge.specs.Afterwards.{ContentsKept, MachinesKnow, OpeningsKept, PremisesKept, VersionsKept};

use normal_traits::Normalized;

/// The invariant holds of a run that made no move.
pub fn openings_kept<C: Normalized>()
    ensures { OpeningsKept C.form }
{}

/// No client has written the two counters or the words of the help queue, and each record can count its rounds.
pub fn premises_kept<C: Normalized>()
    ensures { PremisesKept C.form }
{}

/// Each block that a record has named holds the operation and the list of its call.
pub fn contents_kept<C: Normalized>()
    ensures { ContentsKept C.form }
{}

/// No version is above the number of won exchanges, so none wraps.
pub fn versions_kept<C: Normalized>()
    ensures { VersionsKept C.form }
{}

/// Each machine knows what it must in its phase: the one that moved, and every other.
pub fn machines_know<C: Normalized>()
    ensures { MachinesKnow C.form }
{}
