//! The verdict on an order of a report.
ghost use Rattle.std.specs.Prelude.{◌≡◌, ◌≤◌, List, length, All, IfOk, false};
ghost use Rattle.std.specs.List.{list_any};
ghost use Rattle.lin_report.specs.Object.{object_of};
ghost use Rattle.lin_report.specs.Calls.{Report, answered_call, report_of};
ghost use Rattle.report_check.specs.Orders.{NAME_LIMIT, IsName};
ghost use Rattle.report_check.specs.Verdicts.{name_of, is_left_out, verdict};
ghost use Rattle.report_check.specs.Judging.{CanJudge, IsFair};
ghost use Rattle.report_check.specs.Tables.{PLACES, Marks};

use crate::orders::Named;
use crate::reasons::{later, reason_for};
use crate::table::{PLACES, table_of, table_place};
use crate::verdicts::{Objection, Reason, Verdict};
use lin_report::{
    Client, FifoObject, MapObject, NoMemory, PendingCall, Receipt, Reply, Sequential, SetObject,
};
use std::alloc::Global;

/// Places at which no name is marked.
fn no_marks(alloc: Global, count: usize) -> Result<Vec<bool>, NoMemory>
    ensures long { IfOk result (λ marks. length marks.items ≡ count) }
    ensures none { IfOk result (λ marks. All (λ mark. mark ≡ false) marks.items) }
{
    Ok(vec![in alloc; false; count]?)
}

/// Whether a call that was answered, and not exhausted, is named by no entry.
fn is_any_left_out(receipts: &[Receipt], marks: &[bool]) -> bool
    requires names { All (λ r. IsName (name_of (answered_call r))) receipts.now }
    requires long { length marks.now ≡ PLACES }
    ensures { (names : List Named) → Marks names marks.now → result ≡ list_any (is_left_out names) receipts.now }
{
    for receipt in receipts {
        let name = Named {
            seat: receipt.seat,
            number: receipt.number,
        };
        if !matches!(receipt.reply, Reply::Exhausted) && !marks[table_place(name)] {
            return true;
        }
    }
    false
}

/// The verdict, by an object that holds nothing yet. It makes each call that an entry names, in order.
fn judge_by<S: Sequential>(
    alloc: Global,
    object: &mut S,
    receipts: &[Receipt],
    pending: &[PendingCall],
    order: &[Named],
) -> Result<Verdict, NoMemory>
    requires starts { S.held object.old ≡ S.object.empty }
    requires report { CanJudge S.object (report_of receipts.now pending.now) }
    requires names { All IsName order.now }
    requires few { length order.now ≤ NAME_LIMIT }
    ensures { IfOk result (λ v. v ≡ verdict S.object (report_of receipts.now pending.now) order.now) }
{
    let table = table_of(alloc, receipts, pending)?;
    let mut marks = no_marks(alloc, PLACES)?;
    let mut latest = 0;
    let mut place = 0;
    for name in order {
        place += 1;
        let at = table_place(*name);
        let told = table[at];
        if let Some(reason) = reason_for(object, told, marks[at], latest)? {
            return Ok(Verdict::NotLegal(Objection { place, reason }));
        }
        marks[at] = true;
        latest = later(latest, told);
    }
    if is_any_left_out(receipts, &marks) {
        return Ok(Verdict::NotLegal(Objection {
            place: place + 1,
            reason: Reason::LeftOut,
        }));
    }
    Ok(Verdict::Legal)
}

/// What an order of a report's calls is worth: whether it is a legal arrangement that keeps the ticks, or else its first
/// entry at fault and why. Memory apart it takes a step for each call and each entry, and what the object takes.
pub fn judge(
    alloc: Global,
    client: Client,
    receipts: &[Receipt],
    pending: &[PendingCall],
    order: &[Named],
) -> Result<Verdict, NoMemory>
    requires report { CanJudge (object_of client) (report_of receipts.now pending.now) }
    requires names { All IsName order.now }
    requires few { length order.now ≤ NAME_LIMIT }
    ensures verdict { IfOk result (λ v. v ≡ verdict (object_of client) (report_of receipts.now pending.now) order.now) }

    // It is legal exactly where the order shows that the report is linearizable.
    ensures fair { IfOk result (λ v. IsFair (object_of client) (report_of receipts.now pending.now) order.now v) }
{
    match client {
        Client::Queue => judge_by(alloc, &mut FifoObject::new(alloc), receipts, pending, order),
        Client::List => judge_by(alloc, &mut SetObject::new(alloc), receipts, pending, order),
        // The object of a list serves all that a set of buckets is asked.
        Client::Buckets => judge_by(alloc, &mut SetObject::new(alloc), receipts, pending, order),
        Client::Tree => judge_by(alloc, &mut MapObject::new(alloc), receipts, pending, order),
    }
}
