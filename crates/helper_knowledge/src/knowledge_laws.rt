//! What is so of helpers and of what they know, of any structure in normalized form.
ghost use Rattle.helper_knowledge.specs.KnowledgeLaws.{KnowledgeKept, NamedKept, WorkIsKind, WorkGoesOn, FilledHolds, AdvancesAreRight};

use normal_traits::Normalized;

/// What a helper knows is kept by every kind of another seat's move, as long as the block in its hand is spare and not
/// the mover's, and a seat that makes a call after a move has made it before.
pub fn knowledge_kept<C: Normalized>()
    ensures { KnowledgeKept C.form }
{}

/// What a loaded record word names, it names from then on, though the record may have gone on.
pub fn named_kept<C: Normalized>()
    ensures { NamedKept C.form }
{}

/// A step of a helper's work is one of the kinds of moves.
pub fn work_is_kind<C: Normalized>()
    ensures { WorkIsKind C.form }
{}

/// After it the helper knows what it must for its next work, and outcomes that it is about to tell fit a record.
pub fn work_goes_on<C: Normalized>()
    ensures { WorkGoesOn C.form }
{}

/// A block into which all stores of a list were made holds the operation and the list of its call, as others read them.
pub fn filled_holds<C: Normalized>()
    ensures { FilledHolds C.form }
{}

/// Where a helper wins the exchange of the record that it was about to make, however late it came to it, that is one of
/// the kinds of moves, what holds of all blocks holds after it, and the record tells what is right of its call.
pub fn advances_are_right<C: Normalized>()
    ensures { AdvancesAreRight C.form }
{}
