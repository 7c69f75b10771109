//! What is proved of every report and every history.
ghost use Rattle.placing_law.specs.Placing.{PlacedIsLinearizable};

/// A report is linearizable where its calls are placed in a history: each change was made by a call of the
/// report while the call ran, and each answered call made one, is exhausted, or observed what was held at some
/// time while it ran.
pub fn placed_is_linearizable()
    ensures { PlacedIsLinearizable }
{}
