//! A run driven by a schedule, in rounds, or in rounds past a seat that stopped.
#![tactic(auto)]

pub use driver::drive;
pub use rounds::take_rounds;
pub use stops::run_past_stop;

pub mod driver;
pub mod laws;
pub mod rounds;
pub mod stops;
