//! The search in one piece.
ghost use Rattle.std.specs.Prelude.{◌≡◌};
ghost use Rattle.normal_traits.specs.declared.form.Found.TheVariants as found;
ghost use Rattle.fast_slow_engine.specs.declared.phases.Phase.TheVariants.{Generate};
ghost use Rattle.fast_slow_engine.specs.declared.phases.Generating.TheVariants.{Search};
ghost use Rattle.fast_slow_engine.specs.PhaseTable.{in_phase, searched};
ghost use Rattle.ellen_tree_form.specs.Search.{AboveInRange, Asks, InRange, IsReady, begun};
ghost use Rattle.ellen_tree_form.specs.Form.{tree_form};

use crate::deciding::{leaf_of, met_again, met_leaf};
use crate::tree::EllenTree;
use crate::words::{child_at, is_internal, key_at, leaf_key_at, leaf_value_at, update_at};
use ellen_tree_form::{Passed, TreeSearch};
use lin_report::Op;
use normal_traits::Found;
use tree_help::words::value_of;
use whole_calls::{Seeks, Steps};

/// How many internal nodes a search in one piece passes.
const MOST_NODES: u32 = 1 << 20;

/// Walks down from the root to a leaf, or to the node before which the bound came.
#[inline(always)]
fn walk<P: Steps<EllenTree>>(op: Op, port: &mut P) -> TreeSearch
    requires begins { (P.machine port.old).phase ≡ Generate (begun op) Search }
    ensures machine { P.machine port.new ≡ in_phase (Generate result Search) (P.machine port.old) }
    ensures rest { P.rest port.new ≡ P.rest port.old }
    ensures asks { Asks result }
{
    let mut above = None;
    let mut node = 0;
    for _ in 0..MOST_NODES {
        let update = port.load(update_at(node));
        let key = port.load(key_at(node));
        let left = u64::from(op.key) < key;
        let child = port.load(child_at(node, left));
        let last = Passed {
            node,
            update,
            left,
            child,
        };
        let reference = value_of(child);
        if !is_internal(reference) {
            return TreeSearch::AtLeaf { op, above, last };
        }
        above = Some(last);
        node = reference / 4;
    }
    TreeSearch::AtUpdate { op, above, node }
}

/// A call that only observes loads the last node's update word again.
#[inline(always)]
fn look_again<P: Steps<EllenTree>>(
    op: Op,
    last: Passed,
    is: bool,
    port: &mut P,
) -> (TreeSearch, Found)
    requires last { InRange last }
    requires begins { (P.machine port.old).phase ≡ Generate (TreeSearch.Again op last is) Search }
    ensures machine { P.machine port.new ≡ searched tree_form result.1 result.0 (P.machine port.old) }
    ensures rest { P.rest port.new ≡ P.rest port.old }
    ensures goes { result.1 ≡ found.Going → Asks result.0 }
    ensures readies { result.1 ≡ found.Ready → IsReady result.0 }
{
    let update = port.load(update_at(last.node));
    let stay = TreeSearch::Again { op, last, is };
    met_again(stay, op, last, is, update)
}

/// A `set` loads the value of the leaf that it copies.
#[inline(always)]
fn look_at_value<P: Steps<EllenTree>>(last: Passed, key: u64, port: &mut P) -> (TreeSearch, Found)
    requires last { InRange last }
    requires begins { (P.machine port.old).phase ≡ Generate (TreeSearch.AtValue last key) Search }
    ensures machine { P.machine port.new ≡ searched tree_form result.1 result.0 (P.machine port.old) }
    ensures rest { P.rest port.new ≡ P.rest port.old }
    ensures goes { result.1 ≡ found.Going → Asks result.0 }
    ensures readies { result.1 ≡ found.Ready → IsReady result.0 }
{
    let value = port.load(leaf_value_at(leaf_of(last)));
    (TreeSearch::SetReady { last, key, value }, Found::Ready)
}

/// The search has come to a leaf. A flag that has to be helped is left to the caller.
#[inline(always)]
fn look_at_leaf<P: Steps<EllenTree>>(
    op: Op,
    above: Option<Passed>,
    last: Passed,
    port: &mut P,
) -> (TreeSearch, Found)
    requires above { AboveInRange above }
    requires last { InRange last }
    requires begins { (P.machine port.old).phase ≡ Generate (TreeSearch.AtLeaf op above last) Search }
    ensures machine { P.machine port.new ≡ searched tree_form result.1 result.0 (P.machine port.old) }
    ensures rest { P.rest port.new ≡ P.rest port.old }
    ensures goes { result.1 ≡ found.Going → Asks result.0 }
    ensures readies { result.1 ≡ found.Ready → IsReady result.0 }
{
    let key = port.load(leaf_key_at(leaf_of(last)));
    let is = key == u64::from(op.key);
    let stay = TreeSearch::AtLeaf { op, above, last };
    match met_leaf(stay, op, above, last, key, is) {
        (TreeSearch::Again { op, last, is }, Found::Going) => look_again(op, last, is, port),
        (TreeSearch::AtValue { last, key }, Found::Going) => look_at_value(last, key, port),
        met => met,
    }
}

impl Seeks for EllenTree {
    #[inline(always)]
    fn search<P: Steps<EllenTree>>(op: Op, port: &mut P) -> (TreeSearch, Found) {
        match walk(op, port) {
            TreeSearch::AtLeaf { op, above, last } => look_at_leaf(op, above, last, port),
            passing => (passing, Found::Going),
        }
    }
}
