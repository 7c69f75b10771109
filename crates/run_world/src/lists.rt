//! The lists that seats hold, and those that helpers carry.
ghost use Rattle.run_world.specs.Lists.{ListsHeld, CarriedHeld};

use normal_traits::Normalized;

/// A machine that offers a list of its own call or wraps it up holds one: it is of the machine's call and has the entries
/// that its search offers; while it is offered it has the block in hand, the entries that the machine executes
/// and the stores that it makes. No other machine holds a list.
pub fn lists_held<C: Normalized>()
    ensures { ListsHeld C.form }
{}

/// A helper that fills a block, or is about to name it in the head's record, carries a list of the call of that record: the
/// block is in its hand, its stores are those of the list, and the record goes on to name that block. No other machine
/// carries a list.
pub fn carried_held<C: Normalized>()
    ensures { CarriedHeld C.form }
{}
