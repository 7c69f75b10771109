//! Every seat keeps its machine, and its number counts its calls.
ghost use Rattle.run_laws.specs.Seats.{SeatsStay, NumbersCount};

use normal_traits::Normalized;

/// In every run there is a machine for each seat, which has that seat and the setup of the run.
pub fn seats_stay<C: Normalized>()
    ensures { SeatsStay C.form }
{}

/// The number of a machine rises by one where a move begins a call of its seat, and else stays.
pub fn numbers_count<C: Normalized>()
    ensures { NumbersCount C.form }
{}
