//! The laws, of any client.
ghost use Rattle.move_orders.specs.Orders.{MovesOverFiles};
ghost use Rattle.move_orders.specs.SeatLines.{LinesGather, LinesTell};

use normal_traits::Normalized;

/// Moves that can follow each other are the run over the commands that they begin, in the order of their
/// seats.
pub fn moves_over_files<C: Normalized>()
    ensures { MovesOverFiles C.form }
{}

/// The lines of a seat at rest are of the commands that it has begun, in order.
pub fn lines_tell<C: Normalized>()
    ensures { LinesTell C.form }
{}

/// The lines of a run are those of its seats, put down from the last seat to the first.
pub fn lines_gather<C: Normalized>()
    ensures { LinesGather C.form }
{}
