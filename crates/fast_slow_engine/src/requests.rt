//! The next request of each phase.
ghost use Rattle.std.specs.Prelude.{◌≡◌, ◌+◌, ◌<◌, ◌≤◌, false, length, slice_get};
ghost use Rattle.fast_slow_engine.specs.Doings.{help_of, phase_of, work_of};
ghost use Rattle.fast_slow_engine.specs.Mechs.{IsCallOf, IsInRange, IsReadyIn, IsSlow, mech_of};
ghost use Rattle.fast_slow_engine.specs.OfferStores.{stored_by};
ghost use Rattle.fast_slow_engine.specs.PhaseTable.{announce_request, request_in, rests};
ghost use Rattle.fast_slow_engine.specs.declared.phases.Phase.{Phase};
ghost use Rattle.node_arena.specs.MemoryMap.{record_place};
ghost use Rattle.step_memory.specs.declared.steps.Request.{Request};
ghost use Rattle.word_fields.specs.Records.{packed_record, record_of};
ghost use Rattle.fast_slow_engine.specs.HelpTable.{CanHelp, CanWork, help_request, work_request};

use crate::call::Call;
use crate::doing::{Aid, Aiding, Doing, Room, Task};
use crate::phases::{Announcing, Applying, Generating};
use node_arena::places::{CLAIMS, NODE_VALUE, QUEUE, TICKS};
use node_arena::{node_place, op_place, record_place, value_place};
use normal_traits::{Normalized, Stores};
use op_record::{announce_op, announce_value};
use step_memory::Request;
use word_fields::RecordWord;

/// The next store that announces a call.
pub fn announce_request<S, W>(call: &Call, at: Announcing, room: &Room<S, W>) -> Request
    requires range { IsInRange call.now }
    requires some { 1 ≤ call.now.number }
    requires code { call.now.op.code < 16 }
    requires key { call.now.op.key < 1048576 }
    ensures { result ≡ announce_request at (mech_of call.now (phase_of room.now)) }
{
    let number = call.number as u16;
    match at {
        Announcing::Value => announce_value(call.seat, number, call.op.value),
        Announcing::Op => announce_op(call.seat, number, call.op),
        Announcing::Record => op_record::announce(call.seat, number),
    }
}

/// The store of an offer with this number.
#[inline(always)]
pub fn store_of(stores: &Stores, made: u32) -> Request
    requires { made < length stores.now.items }
    ensures { result ≡ stored_by (slice_get stores.now.items made) }
{
    let (at, value) = stores[made as usize];
    Request::Store { at, value }
}

/// The exchange of a head's record from the word that was loaded.
#[inline(always)]
pub fn record_exchange(head: u32, word: u64, to: u64) -> Request
    requires { head < 8 }
    ensures request { result ≡ Request.Exchange (record_place head) (packed_record (record_of word)) to }
{
    Request::Exchange {
        at: record_place(head),
        from: RecordWord::unpack(word).pack(),
        to,
    }
}

/// The next request of the work.
fn work_request<C: Normalized>(
    task: &Task<C::Search, C::Wrap>,
    stores: &Stores,
    head: u32,
    word: u64,
) -> Request
    requires head { head < 8 }
    requires can { CanWork C.form (work_of task.now stores.now) }
    ensures { result ≡ work_request C.form (work_of task.now stores.now) head word }
{
    match task {
        Task::Head => Request::Load { at: QUEUE },
        Task::Op => Request::Load { at: op_place(head) },
        Task::Value(_) => Request::Load {
            at: value_place(head),
        },
        Task::Generate { search, at, .. } => match at {
            Generating::Search => C::request(search),
            Generating::LookForBlock => Request::Load { at: CLAIMS },
            Generating::Claim => Request::Add { at: CLAIMS, by: 1 },
        },
        Task::Fill(made) => store_of(stores, *made),
        Task::Advance(to) => record_exchange(head, word, *to),
        Task::Read(read) => read.request(),
        Task::Execute(run) => run.request(),
        Task::Wrap(wrap) => C::wrap_request(wrap),
    }
}

/// The next request of a helper.
fn help_request<C: Normalized>(aid: &Aid<C::Search, C::Wrap>, stores: &Stores) -> Request
    requires { CanHelp C.form (help_of aid.now stores.now) }
    ensures { result ≡ help_request C.form (help_of aid.now stores.now) }
{
    match &aid.at {
        Aiding::Record(_) => Request::Load {
            at: record_place(aid.head),
        },
        Aiding::Known { record, task } => work_request::<C>(task, stores, aid.head, *record),
        Aiding::Remove(remove) => remove.request(),
    }
}

/// The next request of a phase of the slow path. It stands for itself, so that the requests of the fast path are made
/// where they are used.
#[inline(never)]
#[tactic(auto, using(crate::proofs::Commands::code_fits, crate::proofs::Commands::key_fits))]
fn slow_request<C: Normalized>(call: &Call, room: &Room<C::Search, C::Wrap>) -> Request
    requires call { IsCallOf C.form.object call.now }
    requires slow { IsSlow (phase_of room.now) }
    requires ready { IsReadyIn C.form (phase_of room.now) }
    ensures { result ≡ request_in C.form (phase_of room.now) (mech_of call.now (phase_of room.now)) }
{
    match &room.doing {
        Doing::Announce(at) => announce_request(call, *at, room),
        Doing::Enter(enter) => enter.request(),
        Doing::Drive => Request::Load { at: QUEUE },
        Doing::Help { aid, .. } => help_request::<C>(aid, &room.stores),
        Doing::Collect => Request::Load {
            at: record_place(call.seat),
        },
        _ => unreachable!(),
    }
}

/// The next request of a phase in which a call runs.
#[inline(always)]
pub fn request_of<C: Normalized>(call: &Call, room: &Room<C::Search, C::Wrap>) -> Request
    requires call { IsCallOf C.form.object call.now }
    requires runs { rests (phase_of room.now) ≡ false }
    requires ready { IsReadyIn C.form (phase_of room.now) }
    ensures { result ≡ request_in C.form (phase_of room.now) (mech_of call.now (phase_of room.now)) }
{
    match &room.doing {
        Doing::Idle => unreachable!(),
        Doing::Begin | Doing::End(_) => Request::Add { at: TICKS, by: 1 },
        Doing::Look => Request::Load { at: QUEUE },
        Doing::Generate {
            search,
            at: Generating::Search,
        } => C::request(search),
        Doing::Generate {
            at: Generating::LookForBlock,
            ..
        } => Request::Load { at: CLAIMS },
        Doing::Generate {
            at: Generating::Claim,
            ..
        } => Request::Add { at: CLAIMS, by: 1 },
        Doing::Apply {
            at: Applying::Fill(made),
            ..
        } => store_of(&room.stores, *made),
        Doing::Apply {
            run,
            at: Applying::Execute,
        } => run.request(),
        Doing::Wrap(wrap) => C::wrap_request(wrap),
        Doing::Value(reference) => Request::Load {
            at: node_place(*reference, NODE_VALUE),
        },
        Doing::Announce(_) | Doing::Enter(_) | Doing::Drive | Doing::Help { .. } | Doing::Collect =>
            slow_request::<C>(call, room),
    }
}
