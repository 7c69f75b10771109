//! The places of a node, by its block, and of a leaf, by its reference.
ghost use Rattle.std.specs.Prelude.{◌≡◌, ◌<◌, ◌^◌};
ghost use Rattle.ellen_tree_form.specs.Words.{child_at, is_internal, key_at, leaf_key_at, leaf_value_at, update_at};

use node_arena::places::{NODE_KEY, NODE_VALUE};
use node_arena::{block_place, node_place};

/// The field of a block that has the key of its internal node, node 2.
const INNER_KEY: u32 = 17;
/// The field that has its left child's word.
const LEFT_CHILD: u32 = 19;
/// The field that has its right child's word.
const RIGHT_CHILD: u32 = 20;
/// The field that has its update word.
const UPDATE: u32 = 21;

/// Whether a reference names an internal node.
#[inline(always)]
pub fn is_internal(reference: u32) -> bool
    ensures { result ≡ is_internal reference }
{
    reference % 4 == 2
}

/// The place of an internal node's child word.
#[inline(always)]
pub fn child_at(node: u32, left: bool) -> u32
    requires { node < 2 ^ 22 }
    ensures { result ≡ child_at node left }
{
    block_place(node, if left { LEFT_CHILD } else { RIGHT_CHILD })
}

/// The place of an internal node's update word.
#[inline(always)]
pub fn update_at(node: u32) -> u32
    requires { node < 2 ^ 22 }
    ensures { result ≡ update_at node }
{
    block_place(node, UPDATE)
}

/// The place of an internal node's key.
#[inline(always)]
pub fn key_at(node: u32) -> u32
    requires { node < 2 ^ 22 }
    ensures { result ≡ key_at node }
{
    block_place(node, INNER_KEY)
}

/// The place of a leaf's key.
#[inline(always)]
pub fn leaf_key_at(leaf: u32) -> u32
    requires { leaf < 2 ^ 24 }
    ensures { result ≡ leaf_key_at leaf }
{
    node_place(leaf, NODE_KEY)
}

/// The place of a leaf's value.
#[inline(always)]
pub fn leaf_value_at(leaf: u32) -> u32
    requires { leaf < 2 ^ 24 }
    ensures { result ≡ leaf_value_at leaf }
{
    node_place(leaf, NODE_VALUE)
}
