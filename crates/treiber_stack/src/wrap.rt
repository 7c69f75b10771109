//! What a wrap-up says at once.
ghost use Rattle.std.specs.Prelude.{◌≡◌};
ghost use Rattle.treiber_stack_form.specs.Steps.{told_by, wrap_begun};

use crate::search::node_of;
use lin_report::calls::PUT;
use lin_report::{Op, Outcome, Reply};
use normal_traits::{Entry, List, Wrapped};

/// What the exchange of an entry tells its call: a take the node that was the top's, which has its value.
fn told_by(op: Op, entry: Option<Entry>) -> Outcome
    ensures { result ≡ told_by op entry }
{
    match entry {
        Some(Entry { from, .. }) if op.code != PUT => Outcome::ValueOf(node_of(from)),
        _ => Outcome::Plain(Reply::Done),
    }
}

/// A wrap-up that begins: the one entry was passed, or took effect.
pub fn wrap_begun(op: Op, list: &List, stop: u32) -> Wrapped
    ensures { result ≡ wrap_begun op list.now.items stop }
{
    match stop {
        0 => Wrapped::Restart,
        _ => Wrapped::Done(told_by(op, list.as_slice().first().copied())),
    }
}
