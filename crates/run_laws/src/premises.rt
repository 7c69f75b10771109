//! The premises of ticks and claims speak of the client's requests alone.
ghost use Rattle.run_laws.specs.Premises.{ClientKeepsTicks, ClientKeepsClaims};

use normal_traits::Normalized;

/// Where the client's requests leave the tick counter, every request that draws no tick does.
pub fn client_keeps_ticks<C: Normalized>()
    ensures { ClientKeepsTicks C.form }
{}

/// Where the client's requests leave the claim counter, every request that claims nothing does.
pub fn client_keeps_claims<C: Normalized>()
    ensures { ClientKeepsClaims C.form }
{}
