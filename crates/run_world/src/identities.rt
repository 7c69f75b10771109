//! The identities of the lists of a run.
ghost use Rattle.run_world.specs.Identities.{IdentitiesBelow, IdentitiesDiffer, JournalIdentities, CarriedFresh};

use normal_traits::Normalized;

/// The identity of each list that a seat holds, that a helper carries or that a record has named is below the number of
/// moves.
pub fn identities_below<C: Normalized>()
    ensures { IdentitiesBelow C.form }
{}

/// No two of these lists have one identity.
pub fn identities_differ<C: Normalized>()
    ensures { IdentitiesDiffer C.form }
{}

/// The identity of a list with a won exchange is below the number of moves, and a list that is held, carried or named with
/// this identity is that list.
pub fn journal_identities<C: Normalized>()
    ensures { JournalIdentities C.form }
{}

/// No exchange was made for a list that a helper carries: none is before a record has named its block.
pub fn carried_fresh<C: Normalized>()
    ensures { CarriedFresh C.form }
{}
