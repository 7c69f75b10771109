//! What a machine knows of the client's world in each phase, of its own call or as a helper: what one step makes of it, of which
//! kind the step is, and that all others know what they knew.
#![tactic(auto)]

pub mod step_laws;
