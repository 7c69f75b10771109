//! All other steps: each is an allowed step of the client, and what holds of all blocks holds after it.
ghost use Rattle.offered_blocks.specs.BesideLaws.{RequestsBeside, EntriesBeside};
ghost use Rattle.offered_blocks.specs.OtherLaws.{OpensHolding, StoresKeep, ExchangesKeep, NamesKeep, LeavesKeep, RecordsKeep};

use normal_traits::Normalized;

/// At the opening no record has named a block, and all holds that is to hold of blocks.
pub fn opens_holding<C: Normalized>()
    ensures { OpensHolding C.form }
{}

/// It holds after a store of the engine: at its first words but the records, or in a block that no list uses and no
/// record has named.
pub fn stores_keep<C: Normalized>()
    ensures { StoresKeep C.form }
{}

/// It holds after an exchange of a search, of a wrap-up, or of a list that no record has named.
pub fn exchanges_keep<C: Normalized>()
    ensures { ExchangesKeep C.form }
{}

/// A request of a search or a wrap-up leaves the world as it is, or is such an exchange.
pub fn requests_beside<C: Normalized>()
    ensures { RequestsBeside C.form }
{}

/// So is an entry of a list that no record has named.
pub fn entries_beside<C: Normalized>()
    ensures { EntriesBeside C.form }
{}

/// It holds after a record names a block that is filled for its call, while no list is executed; that list is executed
/// from then on.
pub fn names_keep<C: Normalized>()
    ensures { NamesKeep C.form }
{}

/// It holds after the record leaves Executing, where the list has stopped.
pub fn leaves_keep<C: Normalized>()
    ensures { LeavesKeep C.form }
{}

/// It holds after any other word is put into a record.
pub fn records_keep<C: Normalized>()
    ensures { RecordsKeep C.form }
{}
