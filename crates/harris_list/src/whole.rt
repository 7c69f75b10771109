//! The search of a key in one piece.
ghost use Rattle.std.specs.Prelude.{◌≡◌, ◌<◌, ◌^◌};
ghost use Rattle.normal_traits.specs.declared.form.Found.TheVariants as found;
ghost use Rattle.fast_slow_engine.specs.declared.phases.Phase.TheVariants.{Generate};
ghost use Rattle.fast_slow_engine.specs.declared.phases.Generating.TheVariants.{Search};
ghost use Rattle.fast_slow_engine.specs.PhaseTable.{searched};
ghost use Rattle.harris_list_form.specs.Search.{Asks, IsReady, begun_at, sought_of};
ghost use Rattle.harris_list_form.specs.declared.states.ListSearch.TheVariants.{Start};
ghost use Rattle.harris_list_form.specs.Form.{list_form};
ghost use Rattle.harris_list.specs.declared.way.Stage.TheVariants as stage;
ghost use Rattle.harris_list.specs.Ways.{search_at};
ghost use Rattle.harris_list.specs.WalkEnds.{arrived};

use crate::deciding::{End, finish, move_on};
use crate::list_steps::ListSteps;
use crate::search::{key_begun_at, unlinked};
use crate::way::{Stage, Way};
use crate::whole_least::seek_least;
use crate::words::{is_marked, key_place, leading, led, next_place};
use harris_list_form::Left;
use lin_report::Op;
use lin_report::calls::MIN;
use normal_traits::Found;

/// How many nodes a search in one piece passes.
pub(crate) const MOST_NODES: u32 = 1 << 20;

/// Where a walk is: behind the left word, with marked nodes alone between it and `cur` in a run. `cur` is null
/// at the end of the list.
#[derive(Clone, Copy)]
pub struct Spot {
    pub left: Left,
    pub run: bool,
    pub cur: u32,
}

/// The node at a spot, unmarked and of no lower key: its next word, and whether its key is the one that is sought.
#[derive(Clone, Copy)]
pub struct Met {
    pub next: u64,
    pub found: bool,
}

/// Walks from the place where a list begins, up to a node of no lower key. None is met at the end of the list,
/// nor where the bound came first.
#[inline(always)]
fn walk<C: ListSteps<P>, P>(start: u32, op: Op, port: &mut P) -> (Spot, Option<Met>)
    requires begins { (C.machine port.old).phase ≡ Generate (Start (sought_of op) start) Search }
    ensures machine { C.machine port.new ≡ searched (list_form C.lists) (arrived (Start (sought_of op) start) (sought_of op) result).1 (arrived (Start (sought_of op) start) (sought_of op) result).0 (C.machine port.old) }
    ensures rest { C.rest port.new ≡ C.rest port.old }
    ensures small { result.0.cur < 2 ^ 23 }
{
    let word = C::load(port, start);
    let mut left = Left { place: start, word };
    let mut run = false;
    let mut cur = led(word);
    for _ in 0..MOST_NODES {
        if cur == 0 {
            break;
        }
        let next = C::load(port, next_place(cur));
        if is_marked(next) {
            run = true;
        } else {
            let key = C::load(port, key_place(cur));
            let wanted = u64::from(op.key);
            if key >= wanted {
                let found = key == wanted;
                return (Spot { left, run, cur }, Some(Met { next, found }));
            }
            let place = next_place(cur);
            left = Left { place, word: next };
            run = false;
        }
        cur = led(next);
    }
    (Spot { left, run, cur }, None)
}

/// What the search comes to where its walk ended.
#[inline(always)]
fn arrive(way: &mut Way, spot: Spot, met: Option<Met>) -> Found
    requires { spot.cur < 2 ^ 23 }
    ensures search { (search_at way.new, result) ≡ arrived (search_at way.old) way.old.sought (spot, met) }
    ensures goes { result ≡ found.Going → Asks (search_at way.new) }
    ensures readies { result ≡ found.Ready → IsReady (search_at way.new) }
{
    let Spot { left, run, cur } = spot;
    match met {
        None => move_on(way, left, run, cur),
        Some(Met { next, found }) => {
            let end = End {
                left,
                cur,
                next,
                found,
            };
            finish(way, run, end)
        }
    }
}

/// Unlinks the marked nodes before the node that was come to.
#[inline(always)]
fn unlink<C: ListSteps<P>, P>(way: &mut Way, port: &mut P) -> Found
    requires stage { way.old.stage ≡ stage.Unlink }
    requires cur { way.old.cur < 2 ^ 23 }
    requires begins { (C.machine port.old).phase ≡ Generate (search_at way.old) Search }
    ensures machine { C.machine port.new ≡ searched (list_form C.lists) result (search_at way.new) (C.machine port.old) }
    ensures rest { C.rest port.new ≡ C.rest port.old }
    ensures goes { result ≡ found.Going → Asks (search_at way.new) }
    ensures readies { result ≡ found.Ready → IsReady (search_at way.new) }
{
    let left = way.left;
    let to = leading(left.word, way.cur);
    let seen = C::exchange(port, left.place, left.word, to);
    unlinked(way, seen)
}

/// Makes steps of a search of a key that begins at the place where a list begins.
#[inline(always)]
fn seek_key<C: ListSteps<P>, P>(start: u32, op: Op, port: &mut P) -> (Way, Found)
    requires begins { (C.machine port.old).phase ≡ Generate (Start (sought_of op) start) Search }
    ensures machine { C.machine port.new ≡ searched (list_form C.lists) result.1 (search_at result.0) (C.machine port.old) }
    ensures rest { C.rest port.new ≡ C.rest port.old }
    ensures goes { result.1 ≡ found.Going → Asks (search_at result.0) }
    ensures readies { result.1 ≡ found.Ready → IsReady (search_at result.0) }
{
    let (spot, met) = walk::<C, P>(start, op, port);
    let mut way = key_begun_at(start, op);
    let found = arrive(&mut way, spot, met);
    match (found, way.stage) {
        (Found::Going, Stage::Unlink) => {
            let found = unlink::<C, P>(&mut way, port);
            (way, found)
        }
        _ => (way, found),
    }
}

/// Makes steps of the search of an operation that begins there.
#[inline(always)]
pub fn seek<C: ListSteps<P>, P>(start: u32, op: Op, port: &mut P) -> (Way, Found)
    requires begins { (C.machine port.old).phase ≡ Generate (begun_at start op) Search }
    ensures machine { C.machine port.new ≡ searched (list_form C.lists) result.1 (search_at result.0) (C.machine port.old) }
    ensures rest { C.rest port.new ≡ C.rest port.old }
    ensures goes { result.1 ≡ found.Going → Asks (search_at result.0) }
    ensures readies { result.1 ≡ found.Ready → IsReady (search_at result.0) }
{
    if op.code == MIN {
        seek_least::<C, P>(start, op, port)
    } else {
        seek_key::<C, P>(start, op, port)
    }
}
