//! The search of the least key in one piece.
ghost use Rattle.std.specs.Prelude.{◌≡◌, ◌<◌, ◌^◌};
ghost use Rattle.normal_traits.specs.declared.form.Found.TheVariants as found;
ghost use Rattle.fast_slow_engine.specs.declared.phases.Phase.TheVariants.{Generate};
ghost use Rattle.fast_slow_engine.specs.declared.phases.Generating.TheVariants.{Search};
ghost use Rattle.fast_slow_engine.specs.PhaseTable.{searched};
ghost use Rattle.harris_list_form.specs.declared.states.ListSearch.TheVariants.{LeastStart};
ghost use Rattle.harris_list_form.specs.Search.{Asks, IsReady};
ghost use Rattle.harris_list_form.specs.Form.{list_form};
ghost use Rattle.harris_list.specs.declared.way.Stage.TheVariants as stage;
ghost use Rattle.harris_list.specs.Ways.{search_at};
ghost use Rattle.harris_list.specs.WalkEnds.{least_arrived};

use crate::least::{keyed, meet, move_to, unlinked};
use crate::list_steps::ListSteps;
use crate::search::least_begun_at;
use crate::way::{Stage, Way};
use crate::whole::{MOST_NODES, Spot};
use crate::words::{is_marked, key_place, leading, led, next_place};
use harris_list_form::Left;
use lin_report::Op;
use normal_traits::Found;
use step_memory::Seen;

/// Walks from the place where a list begins, over marked nodes, up to an unmarked one, and tells whether one was met.
/// None is at the end of the list, nor where the bound came first.
#[inline(always)]
fn walk_least<C: ListSteps<P>, P>(start: u32, port: &mut P) -> (Spot, bool)
    requires begins { (C.machine port.old).phase ≡ Generate (LeastStart start) Search }
    ensures machine { C.machine port.new ≡ searched (list_form C.lists) (least_arrived (LeastStart start) result).1 (least_arrived (LeastStart start) result).0 (C.machine port.old) }
    ensures rest { C.rest port.new ≡ C.rest port.old }
    ensures small { result.0.cur < 2 ^ 23 }
{
    let word = C::load(port, start);
    let left = Left { place: start, word };
    let mut run = false;
    let mut cur = led(word);
    for _ in 0..MOST_NODES {
        if cur == 0 {
            break;
        }
        let next = C::load(port, next_place(cur));
        if !is_marked(next) {
            return (Spot { left, run, cur }, true);
        }
        run = true;
        cur = led(next);
    }
    (Spot { left, run, cur }, false)
}

/// What the search comes to where its walk ended.
#[inline(always)]
fn arrive(way: &mut Way, spot: Spot, met: bool) -> Found
    requires { spot.cur < 2 ^ 23 }
    ensures search { (search_at way.new, result) ≡ least_arrived (search_at way.old) (spot, met) }
    ensures goes { result ≡ found.Going → Asks (search_at way.new) }
    ensures readies { result ≡ found.Ready → IsReady (search_at way.new) }
{
    let Spot { left, run, cur } = spot;
    if met {
        meet(way, left, run, cur)
    } else {
        move_to(way, left, run, cur)
    }
}

/// Unlinks the marked nodes before the node that was come to.
#[inline(always)]
fn unlink<C: ListSteps<P>, P>(way: &mut Way, port: &mut P) -> Found
    requires stage { way.old.stage ≡ stage.LeastUnlink }
    requires cur { way.old.cur < 2 ^ 23 }
    requires begins { (C.machine port.old).phase ≡ Generate (search_at way.old) Search }
    ensures machine { C.machine port.new ≡ searched (list_form C.lists) result (search_at way.new) (C.machine port.old) }
    ensures rest { C.rest port.new ≡ C.rest port.old }
    ensures goes { result ≡ found.Going → Asks (search_at way.new) }
    ensures readies { result ≡ found.Ready → IsReady (search_at way.new) }
{
    let left = way.left;
    let to = leading(left.word, way.cur);
    let seen = C::exchange(port, left.place, left.word, to);
    unlinked(way, seen)
}

/// Loads the key of the least node.
#[inline(always)]
fn tell<C: ListSteps<P>, P>(way: &Way, port: &mut P) -> Found
    requires stage { way.now.stage ≡ stage.LeastKey }
    requires cur { way.now.cur < 2 ^ 23 }
    requires begins { (C.machine port.old).phase ≡ Generate (search_at way.now) Search }
    ensures machine { C.machine port.new ≡ searched (list_form C.lists) result (search_at way.now) (C.machine port.old) }
    ensures rest { C.rest port.new ≡ C.rest port.old }
    ensures answers { (result ≡ found.Going → ⊥) × (result ≡ found.Ready → ⊥) }
{
    let before = C::load(port, key_place(way.cur));
    keyed(way, Seen { before, won: true })
}

/// Makes steps of a search of the least key that begins at the place where a list begins.
#[inline(always)]
pub fn seek_least<C: ListSteps<P>, P>(start: u32, op: Op, port: &mut P) -> (Way, Found)
    requires begins { (C.machine port.old).phase ≡ Generate (LeastStart start) Search }
    ensures machine { C.machine port.new ≡ searched (list_form C.lists) result.1 (search_at result.0) (C.machine port.old) }
    ensures rest { C.rest port.new ≡ C.rest port.old }
    ensures goes { result.1 ≡ found.Going → Asks (search_at result.0) }
    ensures readies { result.1 ≡ found.Ready → IsReady (search_at result.0) }
{
    let (spot, met) = walk_least::<C, P>(start, port);
    let mut way = least_begun_at(start, op);
    let mut found = arrive(&mut way, spot, met);
    if let (Found::Going, Stage::LeastUnlink) = (found, way.stage) {
        found = unlink::<C, P>(&mut way, port);
    }
    if let (Found::Going, Stage::LeastKey) = (found, way.stage) {
        found = tell::<C, P>(&way, port);
    }
    (way, found)
}
