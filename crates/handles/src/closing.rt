//! All handles are given back, and the run ends.
ghost use Rattle.std.specs.Prelude.{◌≡◌};
ghost use Rattle.thread_laws.specs.Headline.{MeetsInSomeOrder};
ghost use Rattle.thread_runs.specs.Whole.{IsRun};
ghost use Rattle.handles.specs.Handles.{files_of, lines_of_all, taken_in};
ghost use Rattle.handles.specs.Opening.{AreAllHandles};

use crate::handle::Handle;
use normal_traits::Normalized;
use shared_memory::{Shared, Totals};

/// The last handle, once it has taken in the others from the last to the first.
fn gather<C: Normalized>(shared: &Shared<C>, mut handles: Vec<Handle<C>>) -> Handle<C>
    requires all { AreAllHandles shared.now handles.items }
    ensures table { result.table ≡ shared.now.table }
    ensures view { result.view ≡ taken_in handles.items }
{
    let Some(mut taker) = handles.pop() else {
        unreachable!()
    };
    while let Some(other) = handles.pop() {
        taker.take_in(shared, other);
    }
    taker
}

/// Ends the run, once all handles are given back, that of seat i at place i, and tells its two counters. The lines of
/// all handles are all lines of a run with these counters, in which each seat made the calls of its handle and none is
/// left. That run is the run of these calls in some order of the seats, and meets what every run meets: its report is
/// complete and linearizable, and no call was overtaken more often than may be.
pub fn close<C: Normalized>(shared: Shared<C>, handles: Vec<Handle<C>>) -> Totals
    requires all { AreAllHandles shared handles.items }
    ensures run { IsRun C.form shared.setup (files_of handles.items) (lines_of_all handles.items) result.ticks result.claimed }
    ensures headline { MeetsInSomeOrder C.form shared.setup (files_of handles.items) (lines_of_all handles.items) result.ticks result.claimed }
{
    let whole = gather(&shared, handles);
    whole.close(shared)
}
