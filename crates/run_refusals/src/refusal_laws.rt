//! What is known by whoever tells that no block is left.
ghost use Rattle.run_refusals.specs.NoneLeft.{NoneLeftHolds};

use normal_traits::Normalized;

/// Whoever tells that no block is left, a call, a record or a helper that is to exchange a record, knows that the claim
/// counter has reached the capacity, and that the operation may be told so.
pub fn none_left_holds<C: Normalized>()
    ensures { NoneLeftHolds C.form }
{}
