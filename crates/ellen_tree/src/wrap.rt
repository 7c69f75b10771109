//! The wrap-up of a list that stopped: the help of its own flag.
ghost use Rattle.std.specs.Prelude.{◌≡◌, ℕ};
ghost use Rattle.tree_help.specs.Helps.{help_fed};
ghost use Rattle.ellen_tree_form.specs.Search.{WrapsUp, begin_wrap_of, flag_of, sets_flag, wrap_begun_of, wrapped_by};

use crate::offers::may_list;
use lin_report::calls::{REM, SET};
use lin_report::{Op, Outcome, Reply};
use normal_traits::{Entry, List, Wrapped};
use step_memory::Seen;
use tree_help::states::{DELETING, INSERTING};
use tree_help::words::state_of;
use tree_help::{Flag, Help, HelpDelete, HelpInsert, Helping};

/// The flag that the first entry of a list sets.
fn flag_of(list: &List) -> Flag
    ensures { result ≡ flag_of list.now.items }
{
    match list.as_slice().first().copied() {
        None => Flag { place: 0, word: 0 },
        Some(Entry { target, to, .. }) => Flag {
            place: target,
            word: to,
        },
    }
}

/// Whether a flag is one that the operation sets.
fn flags(op: Op, flag: Flag) -> bool
    ensures { result ≡ sets_flag op flag }
{
    let state = state_of(flag.word);
    (op.code == SET && state == INSERTING) || (op.code == REM && state == DELETING)
}

/// A wrap-up that begins.
pub fn begun_wrap(op: Op, list: &List) -> Help
    ensures help { (stop : ℕ) → result ≡ begin_wrap_of op list.now.items stop }
    ensures wraps { WrapsUp result }
{
    let flag = flag_of(list);
    if op.code == SET {
        Help::Insert {
            help: HelpInsert::ReadPlace { flag },
        }
    } else {
        Help::Delete {
            help: HelpDelete::MarkPlace { flag },
        }
    }
}

/// What it says at once: a list that set no flag has changed nothing.
pub fn wrap_begun(op: Op, list: &List, stop: u32) -> Wrapped
    ensures { result ≡ wrap_begun_of op list.now.items stop }
{
    if may_list(op) && stop == 0 {
        return Wrapped::Restart;
    }
    if flags(op, flag_of(list)) {
        Wrapped::Going
    } else {
        Wrapped::Done(Outcome::Plain(Reply::Done))
    }
}

/// Takes in what a step of the wrap-up saw: done where its change was made, again where it was given up.
pub fn wrap_fed(help: &mut Help, seen: Seen) -> Wrapped
    requires { WrapsUp help.old }
    ensures help { help.new ≡ (help_fed help.old seen).0 }
    ensures wrapped { result ≡ wrapped_by (help_fed help.old seen).1 }
    ensures wraps { WrapsUp help.new }
{
    match help.feed(seen) {
        Helping::Running => Wrapped::Going,
        Helping::Finished => Wrapped::Done(Outcome::Plain(Reply::Yes)),
        Helping::BackedOut => Wrapped::Restart,
    }
}
