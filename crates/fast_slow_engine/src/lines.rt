//! The line of a call: whose it is, and when it is written.
ghost use Rattle.fast_slow_engine.specs.Lines.{CallsEnd, LinesAreOwn, RestPendsNothing};

use normal_traits::Normalized;

/// What a step returns is a line of its machine's call: of its seat, its number and its operation.
pub fn lines_are_own<C: Normalized>()
    ensures { LinesAreOwn C.Search C.Wrap }
{}

/// A call runs up to the step that returns its line, and no longer.
pub fn calls_end<C: Normalized>()
    ensures { CallsEnd C.form }
{}

/// A machine at rest has no pending call.
pub fn rest_pends_nothing<C: Normalized>()
    ensures { RestPendsNothing C.Search C.Wrap }
{}
