//! What a move leaves of the invariant of runs: of what each machine knows, of versions, blocks and the engine's words; and that
//! the invariant holds where a run opens.
#![tactic(auto)]

pub mod part_laws;
