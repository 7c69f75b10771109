//! The calls of a report, the answered and the pending ones apart.
ghost use Rattle.std.specs.Prelude.{◌≡◌, map, IfOk};
ghost use Rattle.std.specs.List.{filter_map};
ghost use Rattle.report_check.specs.CallLines.{call_of};
ghost use Rattle.report_check.specs.Reports.{receipt_in, waiting_in};

use crate::call_lines::CallLine;
use lin_report::{NoMemory, PendingCall, Receipt};
use std::alloc::Global;

/// The calls of a report, both lists in rising order of begin.
#[derive(Debug, Drop)]
pub struct ReadReport {
    pub receipts: Vec<Receipt>,
    pub pending: Vec<PendingCall>,
}

/// The receipt of a call, if it was answered.
fn receipt_in(call: &CallLine) -> Option<Receipt>
    ensures { result ≡ receipt_in (call_of call.now) }
{
    let (reply, end) = call.answer?;
    Some(Receipt {
        seat: call.seat,
        number: call.number,
        op: call.op,
        reply,
        begin: call.begin,
        end,
        path: call.path,
    })
}

/// A call that is pending.
fn waiting_in(call: &CallLine) -> Option<PendingCall>
    ensures { result ≡ waiting_in (call_of call.now) }
{
    if call.answer.is_some() {
        return None;
    }
    Some(PendingCall {
        seat: call.seat,
        number: call.number,
        op: call.op,
        begin: call.begin,
        path: call.path,
    })
}

/// The receipts of the calls that were answered.
fn receipts_in(alloc: Global, calls: &[CallLine]) -> Result<Vec<Receipt>, NoMemory>
    ensures { IfOk result (λ v. v.items ≡ filter_map receipt_in (map call_of calls.now)) }
{
    let mut receipts = Vec::new(alloc);
    for call in calls {
        if let Some(receipt) = receipt_in(call) {
            receipts.push(receipt)?;
        }
    }
    Ok(receipts)
}

/// The calls that are pending.
fn pending_in(alloc: Global, calls: &[CallLine]) -> Result<Vec<PendingCall>, NoMemory>
    ensures { IfOk result (λ v. v.items ≡ filter_map waiting_in (map call_of calls.now)) }
{
    let mut pending = Vec::new(alloc);
    for call in calls {
        if let Some(waiting) = waiting_in(call) {
            pending.push(waiting)?;
        }
    }
    Ok(pending)
}

/// The answered calls and the pending ones, each in the order of their lines.
pub(crate) fn part(alloc: Global, calls: &[CallLine]) -> Result<ReadReport, NoMemory>
    ensures receipts { IfOk result (λ r. r.receipts.items ≡ filter_map receipt_in (map call_of calls.now)) }
    ensures pending { IfOk result (λ r. r.pending.items ≡ filter_map waiting_in (map call_of calls.now)) }
{
    let receipts = receipts_in(alloc, calls)?;
    let pending = pending_in(alloc, calls)?;
    Ok(ReadReport { receipts, pending })
}
