//! The steps of a wrap-up.
ghost use Rattle.std.specs.Prelude.{◌≡◌};
ghost use Rattle.ms_queue_form.specs.Wrap.{done, after_entry, wrap_begun, wrap_asked, wrap_fed};

use crate::words::{moved, next_place, node_of};
use lin_report::calls::PUT;
use lin_report::{Op, Outcome, Reply};
use ms_queue_form::QueueWrap;
use node_arena::places::TAIL;
use normal_traits::{Entry, List, Wrapped};
use step_memory::{Request, Seen};

/// Nothing is left to do, and there is nothing to tell.
fn done() -> (QueueWrap, Wrapped)
    ensures { result ≡ done }
{
    (QueueWrap::Over, Wrapped::Done(Outcome::Plain(Reply::Done)))
}

/// The one entry took effect.
fn after_entry(op: Op, entry: Option<Entry>) -> (QueueWrap, Wrapped)
    ensures { result ≡ after_entry op entry }
{
    match entry {
        None => done(),
        Some(Entry { target, to, .. }) if op.code == PUT => {
            (QueueWrap::Tail { target, to }, Wrapped::Going)
        }
        Some(Entry { to, .. }) => {
            let value = Outcome::ValueOf(node_of(to));
            (QueueWrap::Over, Wrapped::Done(value))
        }
    }
}

/// A wrap-up that begins, and what it says at once.
pub fn wrap_begun(op: Op, list: &List, stop: u32) -> (QueueWrap, Wrapped)
    ensures { result ≡ wrap_begun op list.now.items stop }
{
    match stop {
        0 => (QueueWrap::Over, Wrapped::Restart),
        1 => after_entry(op, list.as_slice().first().copied()),
        _ => done(),
    }
}

/// What a wrap-up asks for.
pub fn wrap_asked(wrap: QueueWrap) -> Request
    ensures { result ≡ wrap_asked wrap }
{
    match wrap {
        QueueWrap::Over | QueueWrap::Tail { .. } => Request::Load { at: TAIL },
        QueueWrap::Swing { tail, to } => Request::Exchange {
            at: TAIL,
            from: tail,
            to: moved(tail, to),
        },
    }
}

/// What a wrap-up is after its step, and what it says.
pub fn wrap_fed(wrap: QueueWrap, seen: Seen) -> (QueueWrap, Wrapped)
    ensures { result ≡ wrap_fed wrap seen }
{
    match wrap {
        QueueWrap::Tail { target, to } if next_place(seen.before) == target => {
            let tail = seen.before;
            (QueueWrap::Swing { tail, to }, Wrapped::Going)
        }
        QueueWrap::Over | QueueWrap::Tail { .. } | QueueWrap::Swing { .. } => done(),
    }
}
