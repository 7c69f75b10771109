//! Records: what the record of a call tells after each way in which it goes on.
ghost use Rattle.offered_blocks.specs.RecordLaws.{OffersTell, AnswersTell, ChangesTell, RestartsTell};

use normal_traits::Normalized;

/// A record that names a block offered for its call, which made no change, tells that only this list may make one.
pub fn offers_tell<C: Normalized>()
    ensures { OffersTell C.form }
{}

/// A record that is completed with the answer of a search, of whatever helper, that began after the call did tells a
/// right outcome.
pub fn answers_tell<C: Normalized>()
    ensures { AnswersTell C.form }
{}

/// So does one that is completed after the list that it names made the change.
pub fn changes_tell<C: Normalized>()
    ensures { ChangesTell C.form }
{}

/// Where the list that it names is dead, the call made no change.
pub fn restarts_tell<C: Normalized>()
    ensures { RestartsTell C.form }
{}
