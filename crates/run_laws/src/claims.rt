//! Each block is claimed once.
ghost use Rattle.run_laws.specs.Claims.{ClaimsHold, ClaimsRise, ExhaustedSaw, HelperSaw};

use normal_traits::Normalized;

/// The blocks that a run has claimed are 1 to cap and all differ, each block in hand is one of them, no two
/// seats have one in hand, and the claim counter is below cap and the seats together. The premise is that
/// nothing but claims writes the counter.
pub fn claims_hold<C: Normalized>()
    ensures { ClaimsHold C.form }
{}

/// Under that premise the claim counter never falls.
pub fn claims_rise<C: Normalized>()
    ensures { ClaimsRise C.form }
{}

/// A call that ends with Exhausted where it asks for a block has seen the claim counter at or above cap.
pub fn exhausted_saw<C: Normalized>()
    ensures { ExhaustedSaw C.form }
{}

/// A helper that asks for a block and goes on to an exchange of the record, and so to Exhausted, has seen the claim
/// counter at or above cap.
pub fn helper_saw<C: Normalized>()
    ensures { HelperSaw C.form }
{}
