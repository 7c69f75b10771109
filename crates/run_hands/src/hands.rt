//! The blocks in hand, the used blocks, and the blocks that records have named.
ghost use Rattle.run_hands.specs.Hands.{BlocksHeld, ClaimsFit, HandsSpare, OffersClaimed, OffersStay, QueueKept, UsedClaimed};

use normal_traits::Normalized;

/// For its own call a machine asks for a block where the operation needs one and it has none; it fills the block of its
/// list before the first entry, and has it in hand while the list is executed. A list of an operation that needs no
/// block has none.
pub fn blocks_held<C: Normalized>()
    ensures { BlocksHeld C.form }
{}

/// Each used block was claimed, but for block 0, and is one of the run. The premise is that no move but a claim
/// writes the claim counter.
pub fn used_claimed<C: Normalized>()
    ensures { UsedClaimed C.form }
{}

/// Under that premise each block that a record has named was claimed, and its list is for it.
pub fn offers_claimed<C: Normalized>()
    ensures { OffersClaimed C.form }
{}

/// Under that premise a block that a record has named stays named for the same list, whatever move comes.
pub fn offers_stay<C: Normalized>()
    ensures { OffersStay C.form }
{}

/// Under that premise each block in hand was claimed, is in no other hand, no record has named it, and no list uses it
/// before the first entry of its own takes effect.
pub fn hands_spare<C: Normalized>()
    ensures { HandsSpare C.form }
{}

/// Under that premise no more blocks are claimed than there are.
pub fn claims_fit<C: Normalized>()
    ensures { ClaimsFit C.form }
{}

/// So the help queue is kept in every run in which the client's requests leave the claim counter and the words of the
/// queue.
pub fn queue_kept<C: Normalized>()
    ensures { QueueKept C.form }
{}
