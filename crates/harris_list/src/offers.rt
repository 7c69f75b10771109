//! The lists that ready searches name.
ghost use Rattle.std.specs.Prelude.{◌≡◌, ◌+◌, ◌*◌, ◌<◌, ◌≤◌, ◌^◌, [], ◌∷◌, ◌++◌, length};
ghost use Rattle.node_arena.specs.MemoryMap.{reference_to};
ghost use Rattle.harris_list_form.specs.Search.{IsReady, block_for, del_offer, key_place, leading, next_place, offered};
ghost use Rattle.harris_list.specs.Ways.{search_at};

use crate::way::{Stage, Way};
use crate::words::{key_place, leading, led, marking, next_place};
use arrayvec::ArrayVec;
use harris_list_form::Left;
use lin_report::Op;
use lin_report::calls::ADD;
use node_arena::reference_to;
use normal_traits::{Entry, List, Stores};

/// The entry by which the left word leads to a node.
fn link(left: Left, reference: u32) -> Entry
    requires { reference < 2 ^ 23 }
    ensures target { result.target ≡ left.place }
    ensures from { result.from ≡ left.word }
    ensures to { result.to ≡ leading left.word reference }
{
    Entry {
        target: left.place,
        from: left.word,
        to: leading(left.word, reference),
    }
}

/// The list of an add: node 1 of the block is linked behind the left word's node.
fn add_list(left: Left, block: u32) -> List
    requires { block < 2 ^ 17 }
    ensures { result.items ≡ record { target = left.place; from = left.word; to = leading left.word (reference_to block 1) } ∷ [] }
{
    let mut list = ArrayVec::new();
    list.push(link(left, reference_to(block, 1)));
    list
}

/// The stores of an add: the key and the next word of its node.
fn add_stores(cur: u32, key: u32, block: u32, stores: &mut Stores)
    requires cur { cur < 2 ^ 23 }
    requires block { block < 2 ^ 17 }
    requires room { length stores.old.items ≤ 10 }
    ensures stores { stores.new.items ≡ stores.old.items ++ (key_place (reference_to block 1), key) ∷ (next_place (reference_to block 1), 2 * cur) ∷ [] }
    ensures few { length stores.new.items ≤ length stores.old.items + 20 }
{
    let node = reference_to(block, 1);
    stores.push((key_place(node), u64::from(key)));
    stores.push((next_place(node), u64::from(2 * cur)));
}

/// The list of a del: the node is marked, and then unlinked.
fn del_list(left: Left, cur: u32, next: u64) -> List
    requires { cur < 2 ^ 23 }
    ensures { result.items ≡ (del_offer left cur next).entries }
{
    let mut list = ArrayVec::new();
    list.push(Entry {
        target: next_place(cur),
        from: next,
        to: marking(next),
    });
    list.push(link(left, led(next)));
    list
}

/// The block that a list names: an add's alone, for its node.
fn block_for(op: Op, block: u32) -> u32
    ensures block { result ≡ block_for op block }
    ensures none_higher { result ≤ block }
{
    if op.code == ADD { block } else { 0 }
}

/// The list that a ready search names.
pub fn list_of(way: &Way, op: Op, block: u32) -> List
    requires ready { IsReady (search_at way.now) }
    requires block { block < 2 ^ 17 }
    ensures list { result.items ≡ (offered (search_at way.now) op block).entries }
    ensures some { 0 < length result.items }
{
    match way.stage {
        Stage::AddReady => add_list(way.left, block_for(op, block)),
        Stage::DelReady => del_list(way.left, way.cur, way.next),
        _ => unreachable!(),
    }
}

/// Adds the stores that come before it.
pub fn add_stores_of(way: &Way, op: Op, block: u32, stores: &mut Stores)
    requires ready { IsReady (search_at way.now) }
    requires block { block < 2 ^ 17 }
    requires room { length stores.old.items ≤ 10 }
    ensures stores { stores.new.items ≡ stores.old.items ++ (offered (search_at way.now) op block).stores }
    ensures few { length stores.new.items ≤ length stores.old.items + 20 }
{
    if let Stage::AddReady = way.stage {
        add_stores(way.cur, op.key, block_for(op, block), stores);
    }
}
