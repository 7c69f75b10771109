//! The lists that ready searches name, with the stores that come before them.
ghost use Rattle.std.specs.Prelude.{◌≡◌, ◌+◌, ◌<◌, ◌≤◌, ◌^◌, [], ◌∷◌, ◌++◌, length};
ghost use Rattle.ms_queue_form.specs.Search.{IsReady, block_for, offered, put_offer, take_offer};

use crate::words::{moved, next_place};
use arrayvec::ArrayVec;
use lin_report::Op;
use lin_report::calls::PUT;
use ms_queue_form::QueueSearch;
use node_arena::places::{HEAD, NODE_NEXT, NODE_VALUE};
use node_arena::{node_place, reference_to};
use normal_traits::{Entry, List, Stores};
use word_fields::VersionedWord;

/// The list of a put: node 1 of the block is linked behind the tail's node.
fn put_list(tail: u64, next: u64, block: u32) -> List
    requires { block < 2 ^ 17 }
    ensures { result.items ≡ (put_offer tail next 0 block).entries }
{
    let mut list = ArrayVec::new();
    list.push(Entry {
        target: next_place(tail),
        from: next,
        to: VersionedWord::unpack(next)
            .changed(reference_to(block, 1))
            .pack(),
    });
    list
}

/// The stores of a put: the value and the next word of its node.
fn put_stores(value: u32, block: u32, stores: &mut Stores)
    requires block { block < 2 ^ 17 }
    requires room { length stores.old.items ≤ 10 }
    ensures stores { stores.new.items ≡ stores.old.items ++ (put_offer 0 0 value block).stores }
    ensures few { length stores.new.items ≤ length stores.old.items + 20 }
{
    let node = reference_to(block, 1);
    stores.push((node_place(node, NODE_VALUE), u64::from(value)));
    stores.push((node_place(node, NODE_NEXT), 0));
}

/// The list of a take: the head is moved to the node behind it.
fn take_list(head: u64, next: u64) -> List
    ensures { result.items ≡ (take_offer head next).entries }
{
    let mut list = ArrayVec::new();
    list.push(Entry {
        target: HEAD,
        from: head,
        to: moved(head, next),
    });
    list
}

/// The block that a list uses: a put's alone, for its node.
fn block_for(op: Op, block: u32) -> u32
    ensures block { result ≡ block_for op block }
    ensures none_higher { result ≤ block }
{
    if op.code == PUT { block } else { 0 }
}

/// The list that a ready search names.
pub fn list_of(search: QueueSearch, op: Op, block: u32) -> List
    requires ready { IsReady search }
    requires block { block < 2 ^ 17 }
    ensures list { result.items ≡ (offered search op block).entries }
    ensures some { 0 < length result.items }
{
    match search {
        QueueSearch::PutReady { tail, next } => put_list(tail, next, block_for(op, block)),
        QueueSearch::TakeReady { head, next } => take_list(head, next),
        _ => unreachable!(),
    }
}

/// Adds the stores that come before it.
pub fn add_stores_of(search: QueueSearch, op: Op, block: u32, stores: &mut Stores)
    requires ready { IsReady search }
    requires block { block < 2 ^ 17 }
    requires room { length stores.old.items ≤ 10 }
    ensures stores { stores.new.items ≡ stores.old.items ++ (offered search op block).stores }
    ensures few { length stores.new.items ≤ length stores.old.items + 20 }
{
    if let QueueSearch::PutReady { .. } = search {
        put_stores(op.value, block_for(op, block), stores);
    }
}
