//! Which exchanges were won in every run of the whole phase table, for any client with its laws: by which moves, for whose calls,
//! and each of them once. Calls may be published and helped, or not.
#![tactic(auto)]

pub mod exchange_laws;
