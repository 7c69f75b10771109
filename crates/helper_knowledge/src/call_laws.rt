//! What is so in runs of the call that a helper works on.
ghost use Rattle.helper_knowledge.specs.CallLaws.{WinsMeet, NumbersBelow, CallsFollow};

use normal_traits::Normalized;

/// What a won exchange of a record shows of the queue, with what the record tells, is all that has to meet there: the
/// helper works on the call that the head's seat makes.
pub fn wins_meet<C: Normalized>()
    ensures { WinsMeet C.form }
{}

/// In every run no record is of a call to come, nor is a word of the record that a helper has loaded.
pub fn numbers_below<C: Normalized>()
    ensures { NumbersBelow C.form }
{}

/// So what holds of a call as long as it is made is kept: a seat that makes it after a step has made it before.
pub fn calls_follow<C: Normalized>()
    ensures { CallsFollow C.form }
{}
