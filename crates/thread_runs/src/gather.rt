//! The ports are gathered into that of seat 0.
ghost use Rattle.std.specs.Prelude.{◌≡◌, ℕ, ◌+◌, ◌-◌, ◌<◌, ◌≤◌, [], false, map, length, slice_index_or, vec_capacity};
ghost use Rattle.shared_memory.specs.Views.{new_view};
ghost use Rattle.thread_runs.specs.Placed.{Gathers, HasPort, root_view};
ghost use Rattle.thread_runs.specs.Whole.{lines_at};

use crate::worker::Worker;
use lin_report::Receipt;
use normal_traits::Normalized;
use shared_memory::{SeatPort, Shared};

/// Each worker's port goes into that of seat 0, which the last worker has. The lines come out from the last
/// seat down.
pub fn gather_all<C: Normalized>(
    shared: &Shared<C>,
    mut workers: Vec<Worker<C>>,
    mut rooms: Vec<Vec<Receipt>>,
) -> (SeatPort<C>, Vec<Vec<Receipt>>)
    requires some { (0 < length workers.items) × (length workers.items ≤ vec_capacity rooms) × (rooms.items ≡ []) }
    requires others { (j : ℕ) (d : _) → j + 1 < length workers.items → HasPort shared.now.table (new_view (j + 1) shared.now.setup false) (slice_index_or workers.items j d) }
    requires root { (d : _) → HasPort shared.now.table (root_view shared.now.setup (length workers.items - 1)) (slice_index_or workers.items (length workers.items - 1) d) }
    ensures table { result.0.table ≡ shared.now.table }
    ensures view { Gathers shared.now.setup (length workers.items) result.0.view (map (λ v. v.items) result.1.items) }
    ensures lines { (j : ℕ) (d : _) → j + 1 < length workers.items → lines_at (map (λ v. v.items) result.1.items) (length workers.items) (j + 1) ≡ (slice_index_or workers.items j d).receipts.items }
    ensures own { (d : _) → lines_at (map (λ v. v.items) result.1.items) (length workers.items) 0 ≡ (slice_index_or workers.items (length workers.items - 1) d).receipts.items }
{
    let Some(root) = workers.pop() else {
        unreachable!()
    };
    let Worker {
        seat: _,
        mut port,
        machine: _,
        commands: _,
        receipts: first,
    } = root;
    while let Some(other) = workers.pop() {
        let Worker {
            seat: _,
            port: theirs,
            machine: _,
            commands: _,
            receipts,
        } = other;
        shared.gather(&mut port, theirs);
        rooms.push_reserved(receipts);
    }
    rooms.push_reserved(first);
    (port, rooms)
}
