//! The search in one piece.
ghost use Rattle.std.specs.Prelude.{◌≡◌};
ghost use Rattle.normal_traits.specs.declared.form.Found.TheVariants as found;
ghost use Rattle.fast_slow_engine.specs.declared.phases.Phase.TheVariants.{Generate};
ghost use Rattle.fast_slow_engine.specs.declared.phases.Generating.TheVariants.{Search};
ghost use Rattle.fast_slow_engine.specs.PhaseTable.{searched};
ghost use Rattle.ms_queue_form.specs.Search.{Asks, IsReady};
ghost use Rattle.ms_queue_form.specs.Form.{queue_form};

use crate::queue::MsQueue;
use crate::search::told_by_peek;
use crate::words::{is_modified, moved, next_place, node_of};
use lin_report::calls::{PEEK, PUT};
use lin_report::{Op, Outcome, Reply};
use ms_queue_form::QueueSearch;
use node_arena::places::{HEAD, TAIL};
use normal_traits::Found;
use whole_calls::{Seeks, Steps};

/// How often a search in one piece moves the tail on. Where it answers or gives up, nothing is kept of its state, so
/// it gives the one at its beginning.
const MOST_HELPS: u32 = 1024;

/// The search of a put: the last node is looked for from the tail on.
#[inline(always)]
fn put<P: Steps<MsQueue>>(port: &mut P) -> (QueueSearch, Found)
    requires begins { (P.machine port.old).phase ≡ Generate QueueSearch.PutTail Search }
    ensures machine { P.machine port.new ≡ searched queue_form result.1 result.0 (P.machine port.old) }
    ensures rest { P.rest port.new ≡ P.rest port.old }
    ensures goes { result.1 ≡ found.Going → Asks result.0 }
    ensures readies { result.1 ≡ found.Ready → IsReady result.0 }
{
    for _ in 0..MOST_HELPS {
        let tail = port.load(TAIL);
        let next = port.load(next_place(tail));
        if node_of(next) == 0 {
            if is_modified(next) {
                return (QueueSearch::PutTail, Found::Contended);
            }
            return (QueueSearch::PutReady { tail, next }, Found::Ready);
        }
        let seen = port.exchange(TAIL, tail, moved(tail, next));
        if !seen.won {
            return (QueueSearch::PutTail, Found::Contended);
        }
    }
    (QueueSearch::PutTail, Found::Going)
}

/// The search of a take: the node behind the head's is looked for.
#[inline(always)]
fn take<P: Steps<MsQueue>>(port: &mut P) -> (QueueSearch, Found)
    requires begins { (P.machine port.old).phase ≡ Generate QueueSearch.TakeHead Search }
    ensures machine { P.machine port.new ≡ searched queue_form result.1 result.0 (P.machine port.old) }
    ensures rest { P.rest port.new ≡ P.rest port.old }
    ensures goes { result.1 ≡ found.Going → Asks result.0 }
    ensures readies { result.1 ≡ found.Ready → IsReady result.0 }
{
    for _ in 0..MOST_HELPS {
        let head = port.load(HEAD);
        if is_modified(head) {
            return (QueueSearch::TakeHead, Found::Contended);
        }
        let tail = port.load(TAIL);
        let next = port.load(next_place(head));
        if node_of(next) == 0 {
            let empty = Found::Answer(Outcome::Plain(Reply::Empty));
            return (QueueSearch::TakeHead, empty);
        }
        if node_of(tail) != node_of(head) {
            return (QueueSearch::TakeReady { head, next }, Found::Ready);
        }
        let seen = port.exchange(TAIL, tail, moved(tail, next));
        if !seen.won {
            return (QueueSearch::TakeHead, Found::Contended);
        }
    }
    (QueueSearch::TakeHead, Found::Going)
}

/// The search of a peek: the next word of the head's node tells the answer.
#[inline(always)]
fn peek<P: Steps<MsQueue>>(port: &mut P) -> (QueueSearch, Found)
    requires begins { (P.machine port.old).phase ≡ Generate QueueSearch.PeekHead Search }
    ensures machine { P.machine port.new ≡ searched queue_form result.1 result.0 (P.machine port.old) }
    ensures rest { P.rest port.new ≡ P.rest port.old }
    ensures goes { result.1 ≡ found.Going → Asks result.0 }
    ensures readies { result.1 ≡ found.Ready → IsReady result.0 }
{
    let head = port.load(HEAD);
    let behind = port.load(next_place(head));
    let told = Found::Answer(told_by_peek(behind));
    (QueueSearch::PeekHead, told)
}

impl Seeks for MsQueue {
    #[inline(always)]
    fn search<P: Steps<MsQueue>>(op: Op, port: &mut P) -> (QueueSearch, Found) {
        match op.code {
            PUT => put(port),
            PEEK => peek(port),
            _ => take(port),
        }
    }
}
