//! The calls of a report by their names.
ghost use Rattle.std.specs.Prelude.{◌≡◌, ◌≤◌, ◌<◌, ◌++◌, List, map, length, All, AllPairs, IfOk};
ghost use Rattle.lin_report.specs.Calls.{Call, answered_call, pending_call, report_of, calls_of, IsSameCall};
ghost use Rattle.report_check.specs.Orders.{IsName};
ghost use Rattle.report_check.specs.Verdicts.{name_of};
ghost use Rattle.report_check.specs.Tables.{table_place, PLACES, IsTableOf};

use crate::orders::Named;
use lin_report::{NoMemory, Op, PendingCall, Receipt, Reply};
use std::alloc::Global;

/// How many places there are for names.
pub(crate) const PLACES: usize = 524_288;

/// What is kept of a call.
#[derive(Clone, Copy)]
pub(crate) struct Told {
    pub(crate) op: Op,
    pub(crate) answer: Option<(Reply, u64)>,
    pub(crate) begin: u64,
}

/// The place of a name.
pub(crate) fn table_place(name: Named) -> usize
    requires { IsName name }
    ensures place { result ≡ table_place name }
    ensures within { result < PLACES }
{
    name.seat as usize * 65_536 + name.number as usize
}

/// Places at which no call stands.
fn empty_places(alloc: Global, count: usize) -> Result<Vec<Option<Told>>, NoMemory>
    ensures long { IfOk result (λ table. length table.items ≡ count) }
    ensures empty { IfOk result (λ table. All (λ entry. entry ≡ None) table.items) }
{
    Ok(vec![in alloc; None; count]?)
}

/// Puts answered calls at their places, beside those that stand there.
fn put_answered(table: &mut Vec<Option<Told>>, receipts: &[Receipt])
    requires long { length table.old.items ≡ PLACES }
    requires names { All (λ r. IsName (name_of (answered_call r))) receipts.now }
    ensures long { length table.new.items ≡ PLACES }
    ensures stand { (calls : List Call) → IsTableOf calls table.old.items
        → AllPairs (λ c d. ¬ IsSameCall c d) (calls ++ map answered_call receipts.now)
        → IsTableOf (calls ++ map answered_call receipts.now) table.new.items }
{
    for receipt in receipts {
        let name = Named {
            seat: receipt.seat,
            number: receipt.number,
        };
        table[table_place(name)] = Some(Told {
            op: receipt.op,
            answer: Some((receipt.reply, receipt.end)),
            begin: receipt.begin,
        });
    }
}

/// Puts pending calls at their places, beside those that stand there.
fn put_pending(table: &mut Vec<Option<Told>>, pending: &[PendingCall])
    requires long { length table.old.items ≡ PLACES }
    requires names { All (λ p. IsName (name_of (pending_call p))) pending.now }
    ensures long { length table.new.items ≡ PLACES }
    ensures stand { (calls : List Call) → IsTableOf calls table.old.items
        → AllPairs (λ c d. ¬ IsSameCall c d) (calls ++ map pending_call pending.now)
        → IsTableOf (calls ++ map pending_call pending.now) table.new.items }
{
    for call in pending {
        let name = Named {
            seat: call.seat,
            number: call.number,
        };
        table[table_place(name)] = Some(Told {
            op: call.op,
            answer: None,
            begin: call.begin,
        });
    }
}

/// The calls of a report at their places.
pub(crate) fn table_of(
    alloc: Global,
    receipts: &[Receipt],
    pending: &[PendingCall],
) -> Result<Vec<Option<Told>>, NoMemory>
    requires names { All (λ c. IsName (name_of c)) (calls_of (report_of receipts.now pending.now)) }
    requires once { AllPairs (λ c d. ¬ IsSameCall c d) (calls_of (report_of receipts.now pending.now)) }
    ensures { IfOk result (λ table. IsTableOf (calls_of (report_of receipts.now pending.now)) table.items) }
{
    let mut table = empty_places(alloc, PLACES)?;
    put_answered(&mut table, receipts);
    put_pending(&mut table, pending);
    Ok(table)
}
