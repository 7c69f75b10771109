//! A structure is opened with all of its handles.
ghost use Rattle.std.specs.Prelude.{◌≡◌, ℕ, ◌+◌, ◌<◌, ◌≤◌, [], All, IfErr, IfOk, None, Err, Some, length, slice_index_or, vec_capacity};
ghost use Rattle.handles.specs.declared.opening.OpenError.{OpenError};
ghost use Rattle.handles.specs.declared.opening.OpenError.TheVariants as fault;
ghost use Rattle.thread_runs.specs.Placed.{root_view};
ghost use Rattle.handles.specs.Opening.{AreAllHandles, HasNumbers, IsNewHandle, bad_number};

use crate::handle::Handle;
use fast_slow_engine::Setup;
use lin_report::NoMemory;
use normal_traits::Normalized;
use shared_memory::Shared;
use std::alloc::{AllocError, Global};
use thread_runs::opening::room_for;

/// Why a structure was not opened. Nothing is left behind.
#[derive(Clone, Copy, Debug, PartialEq, Eq)]
pub enum OpenError {
    /// There was not enough memory.
    NoMemory,
    /// There are to be 1 to 8 seats.
    Seats,
    /// There are to be 1 to 65,536 blocks.
    Capacity,
    /// A call may fail 0 to 255 times before it is published.
    Limit,
}

impl From<NoMemory> for OpenError {
    ghost from_gives = { λ _ why. why ≡ fault.NoMemory };

    fn from(_error: NoMemory) -> OpenError {
        OpenError::NoMemory
    }
}

impl From<AllocError> for OpenError {
    ghost from_gives = { λ _ why. why ≡ fault.NoMemory };

    fn from(_error: AllocError) -> OpenError {
        OpenError::NoMemory
    }
}

/// The setup of these numbers, or which of them is out of its bounds.
fn setup_of(seats: u32, cap: u32, limit: u32) -> Result<Setup, OpenError>
    ensures bad { IfErr result (λ fault. bad_number seats cap limit ≡ Some fault) }
    ensures good { IfOk result (λ setup. bad_number seats cap limit ≡ None) }
    ensures setup { IfOk result (λ setup. HasNumbers setup seats cap limit) }
{
    if seats < 1 || 8 < seats {
        return Err(OpenError::Seats);
    }
    if cap < 1 || 65536 < cap {
        return Err(OpenError::Capacity);
    }
    if 255 < limit {
        return Err(OpenError::Limit);
    }
    Ok(Setup { seats, cap, limit })
}

/// Splits the handles of the other seats off that of seat 0, in the order of their seats.
fn split_all<C: Normalized>(
    shared: &Shared<C>,
    first: &mut Handle<C>,
    setup: Setup,
    others: &mut Vec<Handle<C>>,
)
    requires setup { setup ≡ shared.now.setup }
    requires first { (first.old.table ≡ shared.now.table) × (first.old.view ≡ root_view setup 0) }
    requires room { (others.old.items ≡ []) × (setup.seats ≤ vec_capacity others.old) }
    ensures first { IsNewHandle shared.now 0 first.new }
    ensures room { (length others.new.items + 1 ≡ setup.seats) × (setup.seats ≤ vec_capacity others.new) }
    ensures others { (j : ℕ) (d : _) → j + 1 < setup.seats → IsNewHandle shared.now (j + 1) (slice_index_or others.new.items j d) }
{
    for seat in 1..setup.seats {
        others.push_reserved(first.split(shared, seat, setup));
    }
}

/// The memory with the handles of all its seats, which made no call. That of seat i stands at place i.
fn open_all<C: Normalized>(
    alloc: Global,
    setup: Setup,
) -> Result<(Shared<C>, Vec<Handle<C>>), NoMemory>
    ensures setup { IfOk result (λ r. r.0.setup ≡ setup) }
    ensures count { IfOk result (λ r. length r.1.items ≡ setup.seats) }
    ensures handles { IfOk result (λ r. (seat : ℕ) (d : _) → seat < setup.seats → IsNewHandle r.0 seat (slice_index_or r.1.items seat d)) }
{
    let (shared, mut first) = Handle::first(alloc, setup)?;
    let mut handles = room_for(alloc, setup.seats as usize)?;
    split_all(&shared, &mut first, setup, &mut handles);
    if handles.insert(0, first).is_err() {
        return Err(NoMemory);
    }
    Ok((shared, handles))
}

/// Opens a structure, which is empty, with the handles of all its seats: that of seat i stands at place i, and each can be
/// given to a thread of its own. All memory is taken here. `cap` is how many blocks the structure may claim, and `limit`
/// how often a call may fail before it is published. Of bad numbers the first is told.
pub fn open<C: Normalized>(
    alloc: Global,
    seats: u32,
    cap: u32,
    limit: u32,
) -> Result<(Shared<C>, Vec<Handle<C>>), OpenError>
    ensures bad { (fault : OpenError) → bad_number seats cap limit ≡ Some fault → result ≡ Err fault }
    ensures good { bad_number seats cap limit ≡ None → IfErr result (λ why. why ≡ fault.NoMemory) }
    ensures numbers { IfOk result (λ r. HasNumbers r.0.setup seats cap limit) }
    ensures all { IfOk result (λ r. AreAllHandles r.0 r.1.items) }
    ensures new { IfOk result (λ r. (seat : ℕ) (d : _) → seat < seats → IsNewHandle r.0 seat (slice_index_or r.1.items seat d)) }
    ensures table { IfOk result (λ r. All (λ handle. handle.table ≡ r.0.table) r.1.items) }
{
    let setup = setup_of(seats, cap, limit)?;
    let opened = open_all(alloc, setup)?;
    Ok(opened)
}
