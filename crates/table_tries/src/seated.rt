//! A seat on the table of a run, while a call of it is made in one piece.
ghost use Rattle.std.specs.Prelude.{◌≡◌, false};
ghost use Rattle.fast_slow_engine.specs.PhaseTable.{rests};

use normal_traits::Normalized;
use shared_memory::{SeatPort, Shared};

/// The memory of a run and the port of a seat of which a call runs. Its steps are those of the port: `Steps` is
/// implemented for each client by itself, since the prover's borrow checker doesn't cover a method of a trait that
/// hands a client's search on where the client is a parameter of the trait.
#[derive(Drop)]
pub struct Seated<'a, C: Normalized> {
    pub shared: &'a Shared<C>,
    pub port: &'a mut SeatPort<C>,
    pub ghost of_table: { port.now.table ≡ shared.now.table },
    pub ghost runs: { rests port.now.view.machine.phase ≡ false },
}

/// Makes tries in one piece, for each client.
pub struct Whole;
