//! What a helper knows of the call that it works on: that every move of another seat keeps it, that each step of the
//! helper's own leaves it what it needs for the next one, and that it is enough where an exchange of the record is won.
#![tactic(auto)]

pub mod call_laws;
pub mod knowledge_laws;
