//! The first reason that applies to an entry.
ghost use Rattle.std.specs.Prelude.{◌≡◌, IfOk, IfSome, IsTrue, None};
ghost use Rattle.report_check.specs.Verdicts.{same_reply, may_be};
ghost use Rattle.report_check.specs.Tables.{told_late, told_reason, later};

use crate::table::Told;
use crate::verdicts::Reason;
use lin_report::{NoMemory, Reply, Sequential};

/// Whether two replies are the same.
fn same_reply(a: Reply, b: Reply) -> bool
    ensures { result ≡ same_reply a b }
{
    match (a, b) {
        (Reply::Value(a), Reply::Value(b)) => a == b,
        (Reply::Yes, Reply::Yes)
        | (Reply::No, Reply::No)
        | (Reply::Done, Reply::Done)
        | (Reply::Empty, Reply::Empty)
        | (Reply::Absent, Reply::Absent)
        | (Reply::Exhausted, Reply::Exhausted) => true,
        _ => false,
    }
}

/// Whether a call with this answer may have been given the reply.
fn may_be(answer: Option<(Reply, u64)>, reply: Reply) -> bool
    ensures { result ≡ may_be answer reply }
{
    match answer {
        Some((told, _)) => same_reply(told, reply),
        None => true,
    }
}

/// Whether a call with this answer had ended before this tick.
fn told_late(answer: Option<(Reply, u64)>, tick: u64) -> bool
    ensures { result ≡ told_late answer tick }
{
    match answer {
        Some((_, end)) => end < tick,
        None => false,
    }
}

/// The later of this tick and the begin of the call, if there is one.
pub(crate) fn later(tick: u64, told: Option<Told>) -> u64
    ensures { result ≡ later tick told }
{
    match told {
        Some(told) if told.begin > tick => told.begin,
        _ => tick,
    }
}

/// The first reason that applies to an entry: what is told of the call that it names, whether an entry before it names
/// the call too, and the latest begin of the calls that entries before it name. Where none does, the object has made the
/// call.
pub(crate) fn reason_for<S: Sequential>(
    object: &mut S,
    told: Option<Told>,
    named: bool,
    latest: u64,
) -> Result<Option<Reason>, NoMemory>
    requires served { IfSome told (λ t. IsTrue (S.object.serves t.op)) }
    ensures reason { IfOk result (λ reason. reason ≡ told_reason S.object (S.held object.old) told named latest) }
    ensures holds { IfOk result (λ reason. reason ≡ None → IfSome told (λ t. S.held object.new ≡ (S.object.apply t.op (S.held object.old)).0)) }
{
    let Some(told) = told else {
        return Ok(Some(Reason::NoSuchCall));
    };
    if let Some((Reply::Exhausted, _)) = told.answer {
        return Ok(Some(Reason::NoSuchCall));
    }
    if named {
        return Ok(Some(Reason::NamedTwice));
    }
    if told_late(told.answer, latest) {
        return Ok(Some(Reason::AgainstTicks));
    }
    let reply = object.apply(told.op)?;
    if may_be(told.answer, reply) {
        Ok(None)
    } else {
        Ok(Some(Reason::AnotherReply))
    }
}
