//! The lists that ready searches name: one entry, which sets a flag, after the stores of its block.
ghost use Rattle.std.specs.Prelude.{◌≡◌, ◌+◌, ◌<◌, ◌≤◌, ◌^◌, nat_lt, not, true, false, [], ◌∷◌, ◌++◌, length};
ghost use Rattle.tree_help.specs.Updates.{note_at};
ghost use Rattle.ellen_tree_form.specs.Words.{child_at, key_at, leaf_key_at, leaf_value_at, may_list, update_at};
ghost use Rattle.ellen_tree_form.specs.Search.{InRange, IsReady, block_for, flag_entry, greater, leaf_on, offered, rem_stores, set_stores};

use crate::words::{child_at, key_at, leaf_key_at, leaf_value_at, update_at};
use arrayvec::ArrayVec;
use ellen_tree_form::{Passed, TreeSearch};
use lin_report::Op;
use lin_report::calls::{REM, SET};
use node_arena::reference_to;
use normal_traits::{Entry, List, Stores};
use tree_help::states::{
    DELETING, FIRST_PLACE, FIRST_WORD, INSERTING, STAY_PLACE, SWING_PLACE, SWING_WORD,
};
use tree_help::words::{note_at, updated};

/// Whether an operation may name a list; those that may need a block.
pub fn may_list(op: Op) -> bool
    ensures { result ≡ may_list op }
{
    op.code == SET || op.code == REM
}

/// The block that a list names.
fn block_for(op: Op, block: u32) -> u32
    ensures block { result ≡ block_for op block }
    ensures none_higher { result ≤ block }
{
    if may_list(op) { block } else { 0 }
}

/// The list of one entry that sets the flag of a block at a node.
fn flagging(at: Passed, block: u32, state: u32) -> List
    requires node { InRange at }
    requires block { block < 2 ^ 17 }
    requires state { state < 4 }
    ensures { result.items ≡ flag_entry at block state ∷ [] }
{
    let mut list = ArrayVec::new();
    list.push(Entry {
        target: update_at(at.node),
        from: at.update,
        to: updated(at.update, block, state),
    });
    list
}

/// The leaf of a block that is new, or the copy of the old one.
fn leaf_on(new: bool, block: u32) -> u32
    requires { block < 2 ^ 17 }
    ensures leaf { result ≡ leaf_on new block }
    ensures small { result < 2 ^ 24 }
{
    reference_to(block, if new { 1 } else { 3 })
}

/// Adds the stores of a leaf: its key and its value.
fn add_leaf(leaf: u32, key: u64, value: u64, stores: &mut Stores)
    requires leaf { leaf < 2 ^ 24 }
    requires room { length stores.old.items ≤ 20 }
    ensures stores { stores.new.items ≡ stores.old.items ++ (leaf_key_at leaf, key) ∷ (leaf_value_at leaf, value) ∷ [] }
{
    stores.push((leaf_key_at(leaf), key));
    stores.push((leaf_value_at(leaf), value));
}

/// Adds the stores of the internal node of a block: over the new leaf, which has its own key, and the copy of
/// the old one, which has the other.
fn add_inner(own: u64, key: u64, block: u32, stores: &mut Stores)
    requires block { block < 2 ^ 17 }
    requires room { length stores.old.items ≤ 20 }
    ensures stores { stores.new.items ≡ stores.old.items ++ (key_at block, greater own key) ∷ (child_at block true, leaf_on (nat_lt own key) block) ∷ (child_at block false, leaf_on (not (nat_lt own key)) block) ∷ (update_at block, 0) ∷ [] }
{
    let left = own < key;
    stores.push((key_at(block), if left { key } else { own }));
    stores.push((child_at(block, true), u64::from(leaf_on(left, block))));
    stores.push((child_at(block, false), u64::from(leaf_on(!left, block))));
    stores.push((update_at(block), 0));
}

/// Adds the stores of what the help of an insertion reads: the child that is exchanged, and the word from which.
fn add_swing(last: Passed, block: u32, stores: &mut Stores)
    requires node { InRange last }
    requires block { block < 2 ^ 17 }
    requires room { length stores.old.items ≤ 20 }
    ensures stores { stores.new.items ≡ stores.old.items ++ (note_at block 0, child_at last.node last.left) ∷ (note_at block 1, last.child) ∷ [] }
{
    let swings = child_at(last.node, last.left);
    stores.push((note_at(block, FIRST_PLACE), u64::from(swings)));
    stores.push((note_at(block, FIRST_WORD), last.child));
}

/// The old leaf of an insertion, with what was loaded of it.
#[derive(Clone, Copy)]
struct OldLeaf {
    last: Passed,
    key: u64,
    value: u64,
}

/// Adds the stores of an insertion: a new leaf, a copy of the old one, and the internal node over them.
fn add_set_stores(at: OldLeaf, op: Op, block: u32, stores: &mut Stores)
    requires node { InRange at.last }
    requires block { block < 2 ^ 17 }
    requires room { length stores.old.items ≤ 10 }
    ensures stores { stores.new.items ≡ stores.old.items ++ set_stores at.last op at.key at.value block }
{
    let own = u64::from(op.key);
    add_leaf(leaf_on(true, block), own, u64::from(op.value), stores);
    add_leaf(leaf_on(false, block), at.key, at.value, stores);
    add_inner(own, at.key, block, stores);
    add_swing(at.last, block, stores);
}

/// Adds the stores of a removal: what its help reads.
fn add_rem_stores(above: Passed, last: Passed, block: u32, stores: &mut Stores)
    requires above { InRange above }
    requires last { InRange last }
    requires block { block < 2 ^ 17 }
    requires room { length stores.old.items ≤ 10 }
    ensures stores { stores.new.items ≡ stores.old.items ++ rem_stores above last block }
    ensures few { length stores.new.items ≤ length stores.old.items + 20 }
{
    let swings = child_at(above.node, above.left);
    let stays = child_at(last.node, !last.left);
    stores.push((note_at(block, FIRST_PLACE), u64::from(update_at(last.node))));
    stores.push((note_at(block, FIRST_WORD), last.update));
    stores.push((note_at(block, SWING_PLACE), u64::from(swings)));
    stores.push((note_at(block, SWING_WORD), above.child));
    stores.push((note_at(block, STAY_PLACE), u64::from(stays)));
}

/// The list that a ready search names.
pub fn list_of(search: TreeSearch, op: Op, block: u32) -> List
    requires ready { IsReady search }
    requires block { block < 2 ^ 17 }
    ensures list { result.items ≡ (offered search op block).entries }
    ensures some { 0 < length result.items }
{
    match search {
        TreeSearch::SetReady { last, .. } => flagging(last, block_for(op, block), INSERTING),
        TreeSearch::RemReady { above, .. } => flagging(above, block_for(op, block), DELETING),
        _ => unreachable!(),
    }
}

/// Adds the stores that come before it.
pub fn add_stores_of(search: TreeSearch, op: Op, block: u32, stores: &mut Stores)
    requires ready { IsReady search }
    requires block { block < 2 ^ 17 }
    requires room { length stores.old.items ≤ 10 }
    ensures stores { stores.new.items ≡ stores.old.items ++ (offered search op block).stores }
    ensures few { length stores.new.items ≤ length stores.old.items + 20 }
{
    match search {
        TreeSearch::SetReady { last, key, value } => {
            add_set_stores(OldLeaf { last, key, value }, op, block, stores);
        }
        TreeSearch::RemReady { above, last } => add_rem_stores(above, last, block, stores),
        _ => unreachable!(),
    }
}
