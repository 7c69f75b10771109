//! The lists that ready searches name, with the stores that come before them.
ghost use Rattle.std.specs.Prelude.{◌≡◌, ◌+◌, ◌<◌, ◌≤◌, ◌^◌, [], ◌∷◌, ◌++◌, length};
ghost use Rattle.treiber_stack_form.specs.Steps.{IsReady, block_for, top_entry, offered};

use crate::search::node_of;
use arrayvec::ArrayVec;
use lin_report::Op;
use lin_report::calls::PUT;
use node_arena::places::{NODE_NEXT, NODE_VALUE};
use node_arena::{node_place, reference_to};
use normal_traits::{Entry, List, Stores};
use treiber_stack_form::StackSearch;
use treiber_stack_form::states::TOP;
use word_fields::VersionedWord;

/// The list of one entry: the top is exchanged for a word with this reference.
fn top_list(top: u64, reference: u32) -> List
    requires { reference < 2 ^ 24 }
    ensures { result.items ≡ top_entry top reference ∷ [] }
{
    let mut list = ArrayVec::new();
    list.push(Entry {
        target: TOP,
        from: top,
        to: VersionedWord::unpack(top).changed(reference).pack(),
    });
    list
}

/// The block that a list uses: a put's alone, for its node.
fn block_for(op: Op, block: u32) -> u32
    ensures block { result ≡ block_for op block }
    ensures none_higher { result ≤ block }
{
    if op.code == PUT { block } else { 0 }
}

/// The list that a ready search names.
pub fn list_of(search: StackSearch, op: Op, block: u32) -> List
    requires ready { IsReady search }
    requires block { block < 2 ^ 17 }
    ensures list { result.items ≡ (offered search op block).entries }
    ensures some { 0 < length result.items }
{
    match search {
        StackSearch::PutReady { top } => top_list(top, reference_to(block_for(op, block), 1)),
        StackSearch::TakeReady { top, next } => top_list(top, node_of(next)),
        _ => unreachable!(),
    }
}

/// Adds the stores that come before it: the value of a put's node, and the node behind it.
pub fn add_stores_of(search: StackSearch, op: Op, block: u32, stores: &mut Stores)
    requires ready { IsReady search }
    requires block { block < 2 ^ 17 }
    requires room { length stores.old.items ≤ 10 }
    ensures stores { stores.new.items ≡ stores.old.items ++ (offered search op block).stores }
    ensures few { length stores.new.items ≤ length stores.old.items + 20 }
{
    if let StackSearch::PutReady { top } = search {
        let node = reference_to(block_for(op, block), 1);
        stores.push((node_place(node, NODE_VALUE), u64::from(op.value)));
        stores.push((node_place(node, NODE_NEXT), u64::from(node_of(top))));
    }
}
