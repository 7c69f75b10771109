//! The list of a try: the block that it needs, the stores that fill that, and the exchanges.
ghost use Rattle.std.specs.Prelude.{◌≡◌, ◌<◌, ◌≤◌, ◌↔◌, IsTrue, true, false, length};
ghost use Rattle.fast_slow_engine.specs.declared.phases.Phase.TheVariants.{Generate, End};
ghost use Rattle.fast_slow_engine.specs.declared.phases.Generating.TheVariants.{LookForBlock};
ghost use Rattle.lin_report.specs.declared.calls.Reply.TheVariants as told_as;
ghost use Rattle.fast_slow_engine.specs.Mechs.{IsCallOf, mech_of};
ghost use Rattle.fast_slow_engine.specs.PhaseTable.{offered, stopped};
ghost use Rattle.fast_slow_engine.specs.Tries.{IsSameCall};
ghost use Rattle.whole_calls.specs.Standings.{HasStored, HasWon, IsAfter, IsAtEntry, IsAtStore};

use crate::steps::Steps;
use fast_slow_engine::{Call, fill_for};
use node_arena::places::CLAIMS;
use normal_traits::{List, Normalized, Stores};

/// Whether the claim counter, at this number, has no block left.
fn none_is_left(call: &Call, claimed: u64) -> bool
    ensures { IsTrue result ↔ (call.now.setup.cap ≤ claimed) }
{
    claimed >= u64::from(call.setup.cap)
}

/// Claims a block for a search that can name its list. False where none is left.
#[inline(always)]
pub fn claim<C: Normalized, P: Steps<C>>(search: &C::Search, call: &mut Call, port: &mut P) -> bool
    requires call { IsCallOf C.form.object call.old }
    requires looks { P.machine port.old ≡ mech_of call.old (Generate search.now LookForBlock) }
    ensures claimed { result ≡ true → IsAfter (offered C.form search.now) call.new (P.machine port.new) }
    ensures none_left { result ≡ false → P.machine port.new ≡ mech_of call.new (End told_as.Exhausted) }
    ensures call { IsCallOf C.form.object call.new }
    ensures same { IsSameCall call.new call.old }
    ensures rest { P.rest port.new ≡ P.rest port.old }
{
    let _ = search;
    let asked = port.load(CLAIMS);
    if none_is_left(call, asked) {
        return false;
    }
    let claimed = port.add(CLAIMS, 1);
    if none_is_left(call, claimed) {
        return false;
    }
    call.hand = Some(claimed as u32 + 1);
    true
}

/// Makes the stores into a block.
#[inline(always)]
fn store_all<C: Normalized, P: Steps<C>>(stores: &Stores, list: &List, call: &Call, port: &mut P)
    requires some { 0 < length stores.now.items }
    requires begins { IsAtStore list.now.items stores.now.items 0 call.now (P.machine port.old) }
    ensures stored { IsAtEntry list.now.items 0 call.now (P.machine port.new) }
    ensures rest { P.rest port.new ≡ P.rest port.old }
{
    let _ = list;
    let _ = call;
    for made in 0..stores.len() {
        let (at, value) = stores[made];
        port.store(at, value);
    }
}

/// Fills the block that the list needs, if it needs one.
#[inline(always)]
pub fn fill<C: Normalized, P: Steps<C>>(search: &C::Search, call: &Call, port: &mut P) -> List
    requires call { IsCallOf C.form.object call.now }
    requires ready { C.form.is_ready search.now }
    requires after { IsAfter (offered C.form search.now) call.now (P.machine port.old) }
    ensures at { IsAtEntry result.items 0 call.now (P.machine port.new) }
    ensures some { 0 < length result.items }
    ensures rest { P.rest port.new ≡ P.rest port.old }
{
    let needs = C::needs_block(call.op);
    let block = if needs { call.hand.unwrap_or(0) } else { 0 };
    let list = C::list(search, call.op, block);
    if needs {
        let mut stores = Stores::new();
        fill_for::<C>(call, search, block, &mut stores);
        store_all::<C, P>(&stores, &list, call, port);
    }
    list
}

/// Makes the exchanges of a list up to the first that is lost. The answer is where it stopped.
#[inline(always)]
pub fn execute<C: Normalized, P: Steps<C>>(list: &List, call: &Call, port: &mut P) -> u32
    requires some { 0 < length list.now.items }
    requires begins { IsAtEntry list.now.items 0 call.now (P.machine port.old) }
    ensures stopped { IsAfter (stopped C.form list.now.items result) call.now (P.machine port.new) }
    ensures rest { P.rest port.new ≡ P.rest port.old }
{
    let _ = call;
    for won in 0..list.len() {
        let entry = list[won];
        let seen = port.exchange(entry.target, entry.from, entry.to);
        if !seen.won {
            return won as u32;
        }
    }
    list.len() as u32
}
