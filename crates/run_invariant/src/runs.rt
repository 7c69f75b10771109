//! What holds of every run of the whole phase table, with calls that are published and helped or without.
ghost use Rattle.kept_knowledge.specs.Kept.{MovesKeep, RunsAreKept};
ghost use Rattle.run_invariant.specs.Agreed.{BlocksAgreed, OutcomesFixed};
ghost use Rattle.run_invariant.specs.Runs.{CountersKept, MovesAllowed, MovesOfKinds, QueuesKept};

use normal_traits::Normalized;

/// Each move keeps the whole invariant, for every client with its laws.
pub fn moves_keep<C: Normalized>()
    ensures { MovesKeep C.form }
{}

/// So it holds of every run: the client's world has its shape, the blocks that records have named hold what they must, and
/// each machine knows and tells what is right in its phase, be it of its own call or as a helper.
pub fn runs_are_kept<C: Normalized>()
    ensures { RunsAreKept C.form }
{}

/// Each move of every run is an allowed step of the client's world.
pub fn moves_allowed<C: Normalized>()
    ensures { MovesAllowed C.form }
{}

/// And one of the kinds of moves.
pub fn moves_of_kinds<C: Normalized>()
    ensures { MovesOfKinds C.form }
{}

/// No client writes the two counters: nothing but a begin or a return draws a tick, and nothing but a claim changes the
/// claim counter.
pub fn counters_kept<C: Normalized>()
    ensures { CountersKept C.form }
{}

/// No client writes the words of the help queue, and each record can count its rounds: so every law of the queue holds of
/// every run, without a premise.
pub fn queues_kept<C: Normalized>()
    ensures { QueuesKept C.form }
{}

/// Of an offered block all helpers and its owner agree, however late they come: what they read of it is the operation and
/// the list that were offered, and the list has stopped at one place.
pub fn blocks_agreed<C: Normalized>()
    ensures { BlocksAgreed C.form }
{}

/// A record's outcome is fixed once the record is completed: it is that one word while the record has this number.
pub fn outcomes_fixed<C: Normalized>()
    ensures { OutcomesFixed C.form }
{}
