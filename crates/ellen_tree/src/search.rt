//! The steps of a search.
ghost use Rattle.std.specs.Prelude.{◌≡◌, ◌≢◌};
ghost use Rattle.tree_help.specs.Helps.{Fits, help_fed};
ghost use Rattle.ellen_tree_form.specs.Search.{AboveInRange, Asks, InRange, IsPassing, IsReady, after_help, asked, begun, came_to, fed};

use crate::deciding::{leaf_of, met_again, met_leaf};
use crate::words::{child_at, is_internal, key_at, leaf_key_at, leaf_value_at, update_at};
use ellen_tree_form::{Passed, TreeSearch};
use lin_report::Op;
use normal_traits::Found;
use step_memory::{Request, Seen};
use tree_help::words::value_of;
use tree_help::{Help, Helping};

/// A search at its beginning: at the root.
pub fn begun(op: Op) -> TreeSearch
    ensures search { result ≡ begun op }
    ensures asks { Asks result }
{
    TreeSearch::AtUpdate {
        op,
        above: None,
        node: 0,
    }
}

/// What a search asks for.
pub fn asked(search: TreeSearch) -> Request
    requires { Asks search }
    ensures { result ≡ asked search }
{
    if let TreeSearch::Helps { help } = search {
        return help.request();
    }
    let at = match search {
        TreeSearch::AtUpdate { node, .. } => update_at(node),
        TreeSearch::AtKey { node, .. } => key_at(node),
        TreeSearch::AtChild { op, node, key, .. } => child_at(node, u64::from(op.key) < key),
        TreeSearch::AtLeaf { last, .. } => leaf_key_at(leaf_of(last)),
        TreeSearch::Again { last, .. } => update_at(last.node),
        TreeSearch::AtValue { last, .. } => leaf_value_at(leaf_of(last)),
        _ => unreachable!(),
    };
    Request::Load { at }
}

/// A child was loaded: the search goes on below it, or has come to a leaf.
fn came_to(op: Op, above: Option<Passed>, last: Passed) -> TreeSearch
    requires above { AboveInRange above }
    requires last { InRange last }
    ensures search { result ≡ came_to op above last }
    ensures asks { Asks result }
{
    let reference = value_of(last.child);
    if !is_internal(reference) {
        return TreeSearch::AtLeaf { op, above, last };
    }
    TreeSearch::AtUpdate {
        op,
        above: Some(last),
        node: reference / 4,
    }
}

/// A help made its step. At its end the search gives up, whatever has come of it.
fn after_help(stay: TreeSearch, mut help: Help, seen: Seen) -> (TreeSearch, Found)
    requires { Fits help }
    ensures search { result ≡ after_help stay (help_fed help seen) }
    ensures goes { Asks result.0 }
    ensures unready { result.1 ≢ Found.Ready }
{
    match help.feed(seen) {
        Helping::Running => (TreeSearch::Helps { help }, Found::Going),
        Helping::Finished | Helping::BackedOut => (TreeSearch::Helps { help }, Found::Contended),
    }
}

/// What a search at an internal node is after its step.
fn passed_on(search: TreeSearch, seen: Seen) -> TreeSearch
    requires asks { Asks search }
    requires passing { IsPassing search }
    ensures search { (result, Found.Going) ≡ fed search seen }
    ensures asks { Asks result }
{
    let before = seen.before;
    match search {
        TreeSearch::AtUpdate { op, above, node } => TreeSearch::AtKey {
            op,
            above,
            node,
            update: before,
        },
        TreeSearch::AtKey {
            op,
            above,
            node,
            update,
        } => TreeSearch::AtChild {
            op,
            above,
            node,
            update,
            key: before,
        },
        TreeSearch::AtChild {
            op,
            above,
            node,
            update,
            key,
        } => {
            let last = Passed {
                node,
                update,
                left: u64::from(op.key) < key,
                child: before,
            };
            came_to(op, above, last)
        }
        _ => unreachable!(),
    }
}

/// What a search is after its step, and what it found.
pub fn fed(search: TreeSearch, seen: Seen) -> (TreeSearch, Found)
    requires { Asks search }
    ensures search { result ≡ fed search seen }
    ensures goes { result.1 ≡ Found.Going → Asks result.0 }
    ensures readies { result.1 ≡ Found.Ready → IsReady result.0 }
{
    let before = seen.before;
    match search {
        TreeSearch::AtUpdate { .. } | TreeSearch::AtKey { .. } | TreeSearch::AtChild { .. } => {
            (passed_on(search, seen), Found::Going)
        }
        TreeSearch::AtLeaf { op, above, last } => {
            let is = before == u64::from(op.key);
            met_leaf(search, op, above, last, before, is)
        }
        TreeSearch::Again { op, last, is } => met_again(search, op, last, is, before),
        TreeSearch::AtValue { last, key } => {
            let ready = TreeSearch::SetReady {
                last,
                key,
                value: before,
            };
            (ready, Found::Ready)
        }
        TreeSearch::Helps { help } => after_help(search, help, seen),
        TreeSearch::SetReady { .. } | TreeSearch::RemReady { .. } => unreachable!(),
    }
}
