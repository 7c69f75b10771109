//! What a read of a block gives is what the block holds.
ghost use Rattle.cas_executor_laws.specs.Reads.{ReadsAreExact, ReadsBegin, ReadsGoOn};

/// A read that begins has read nothing else than its block holds.
pub fn reads_begin()
    ensures { ReadsBegin }
{}

/// Nor has it after the load of a further word, where that word of the block stands.
pub fn reads_go_on()
    ensures { ReadsGoOn }
{}

/// After the load of the last word it gives the op word, the value word and the list that the block holds.
pub fn reads_are_exact()
    ensures { ReadsAreExact }
{}
