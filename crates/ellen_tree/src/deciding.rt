//! What a search comes to at its leaf.
ghost use Rattle.std.specs.Prelude.{◌≡◌, ◌≢◌, ◌<◌, ◌^◌};
ghost use Rattle.tree_help.specs.Updates.{is_clean, state_of};
ghost use Rattle.tree_help.specs.declared.states.TheConstants.{CLEAN};
ghost use Rattle.ellen_tree_form.specs.Search.{AboveInRange, Asks, InRange, IsReady, helped, leaf_of, met_again, met_leaf, rem_at, set_at, told};

use crate::words::update_at;
use ellen_tree_form::{Passed, TreeSearch};
use lin_report::calls::{GET, REM, SET};
use lin_report::{Op, Outcome, Reply};
use normal_traits::Found;
use tree_help::states::{CLEAN, MARKED};
use tree_help::words::{is_modified, state_of, value_of};
use tree_help::{Flag, Help};

/// The leaf to which a passed node led.
pub fn leaf_of(passed: Passed) -> u32
    ensures leaf { result ≡ leaf_of passed }
    ensures small { result < 2 ^ 24 }
{
    value_of(passed.child)
}

/// Whether an update word has no flag and no mark.
fn is_clean(word: u64) -> bool
    ensures { result ≡ is_clean word }
{
    state_of(word) == CLEAN
}

/// The search helps the flag or the mark that it has seen.
fn helped(place: u32, word: u64) -> (TreeSearch, Found)
    requires { state_of word ≢ CLEAN }
    ensures search { result ≡ helped place word }
    ensures goes { Asks result.0 }
{
    let help = Help::new(Flag { place, word });
    (TreeSearch::Helps { help }, Found::Going)
}

/// `set` of a key that isn't the leaf's.
fn set_at(stay: TreeSearch, last: Passed, key: u64) -> (TreeSearch, Found)
    requires { InRange last }
    ensures search { result ≡ set_at stay last key }
    ensures goes { result.1 ≡ Found.Going → Asks result.0 }
    ensures readies { result.1 ≡ Found.Ready → IsReady result.0 }
{
    if is_modified(last.update) {
        return (stay, Found::Contended);
    }
    if !is_clean(last.update) {
        return helped(update_at(last.node), last.update);
    }
    (TreeSearch::AtValue { last, key }, Found::Going)
}

/// `rem` of the leaf's key. No leaf that has the key of a command is right below the root.
fn rem_at(stay: TreeSearch, above: Option<Passed>, last: Passed) -> (TreeSearch, Found)
    requires above { AboveInRange above }
    requires last { InRange last }
    ensures search { result ≡ rem_at stay above last }
    ensures goes { result.1 ≡ Found.Going → Asks result.0 }
    ensures readies { result.1 ≡ Found.Ready → IsReady result.0 }
{
    let Some(above) = above else {
        return (stay, Found::Contended);
    };
    if is_modified(above.update) || is_modified(last.update) {
        return (stay, Found::Contended);
    }
    if !is_clean(above.update) {
        return helped(update_at(above.node), above.update);
    }
    if !is_clean(last.update) {
        return helped(update_at(last.node), last.update);
    }
    (TreeSearch::RemReady { above, last }, Found::Ready)
}

/// The leaf's key was loaded, and it is the one that is looked for or it isn't.
pub fn met_leaf(
    stay: TreeSearch,
    op: Op,
    above: Option<Passed>,
    last: Passed,
    key: u64,
    is: bool,
) -> (TreeSearch, Found)
    requires above { AboveInRange above }
    requires last { InRange last }
    ensures search { result ≡ met_leaf stay op above last key is }
    ensures goes { result.1 ≡ Found.Going → Asks result.0 }
    ensures readies { result.1 ≡ Found.Ready → IsReady result.0 }
{
    if op.code == SET && !is {
        return set_at(stay, last, key);
    }
    if op.code == REM && is {
        return rem_at(stay, above, last);
    }
    (TreeSearch::Again { op, last, is }, Found::Going)
}

/// What a call that only observes is told.
fn told(op: Op, last: Passed, is: bool) -> Outcome
    ensures { result ≡ told op last is }
{
    if op.code != GET {
        return Outcome::Plain(Reply::No);
    }
    if is {
        Outcome::ValueOf(leaf_of(last))
    } else {
        Outcome::Plain(Reply::Absent)
    }
}

/// The last node's update word was loaded again: a mark is helped first.
pub fn met_again(
    stay: TreeSearch,
    op: Op,
    last: Passed,
    is: bool,
    update: u64,
) -> (TreeSearch, Found)
    requires { InRange last }
    ensures search { result ≡ met_again stay op last is update }
    ensures goes { result.1 ≡ Found.Going → Asks result.0 }
    ensures readies { result.1 ≡ Found.Ready → IsReady result.0 }
{
    if state_of(update) == MARKED {
        return helped(update_at(last.node), update);
    }
    (stay, Found::Answer(told(op, last, is)))
}
