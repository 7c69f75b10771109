//! The steps of the search of the least key.
ghost use Rattle.std.specs.Prelude.{◌≡◌, ◌<◌, ◌^◌};
ghost use Rattle.harris_list_form.specs.Least.{least_met, least_moved, least_reached};
ghost use Rattle.harris_list_form.specs.Search.{Asks, IsReady, fed};
ghost use Rattle.harris_list.specs.declared.way.Stage.TheVariants as stage;
ghost use Rattle.harris_list.specs.Ways.{search_at};

use crate::way::{Stage, Way};
use crate::words::{is_marked, is_modified, key_in, led};
use harris_list_form::Left;
use lin_report::{Outcome, Reply};
use normal_traits::Found;
use step_memory::Seen;

/// No marked node is left before the one that was come to, or before the end.
#[inline(always)]
fn reach(way: &mut Way, cur: u32) -> Found
    requires { cur < 2 ^ 23 }
    ensures search { (search_at way.new, result) ≡ least_reached (search_at way.old) cur }
    ensures goes { result ≡ Found.Going → Asks (search_at way.new) }
    ensures readies { result ≡ Found.Ready → IsReady (search_at way.new) }
{
    if cur == 0 {
        return Found::Answer(Outcome::Plain(Reply::Empty));
    }
    way.cur = cur;
    way.stage = Stage::LeastKey;
    Found::Going
}

/// The search has come to an unmarked node or to the end. Marked nodes on the way are unlinked first.
#[inline(always)]
pub fn meet(way: &mut Way, left: Left, run: bool, cur: u32) -> Found
    requires { cur < 2 ^ 23 }
    ensures search { (search_at way.new, result) ≡ least_met (search_at way.old) left run cur }
    ensures goes { result ≡ Found.Going → Asks (search_at way.new) }
    ensures readies { result ≡ Found.Ready → IsReady (search_at way.new) }
{
    if !run {
        return reach(way, cur);
    }
    if is_modified(left.word) {
        return Found::Contended;
    }
    way.left = left;
    way.cur = cur;
    way.stage = Stage::LeastUnlink;
    Found::Going
}

/// The search goes on to a node, if there is one.
#[inline(always)]
pub fn move_to(way: &mut Way, left: Left, run: bool, cur: u32) -> Found
    requires { cur < 2 ^ 23 }
    ensures search { (search_at way.new, result) ≡ least_moved (search_at way.old) left run cur }
    ensures goes { result ≡ Found.Going → Asks (search_at way.new) }
    ensures readies { result ≡ Found.Ready → IsReady (search_at way.new) }
{
    if cur == 0 {
        return meet(way, left, run, cur);
    }
    way.left = left;
    way.run = run;
    way.cur = cur;
    way.stage = Stage::LeastNext;
    Found::Going
}

/// The beginning of the list was loaded.
#[inline(always)]
pub fn started(way: &mut Way, seen: Seen) -> Found
    requires { way.old.stage ≡ stage.LeastStart }
    ensures search { (search_at way.new, result) ≡ fed (search_at way.old) seen }
    ensures goes { result ≡ Found.Going → Asks (search_at way.new) }
    ensures readies { result ≡ Found.Ready → IsReady (search_at way.new) }
{
    let left = Left {
        place: way.left.place,
        word: seen.before,
    };
    move_to(way, left, false, led(seen.before))
}

/// The next word of a node was loaded.
#[inline(always)]
pub fn nexted(way: &mut Way, seen: Seen) -> Found
    requires stage { way.old.stage ≡ stage.LeastNext }
    requires cur { way.old.cur < 2 ^ 23 }
    ensures search { (search_at way.new, result) ≡ fed (search_at way.old) seen }
    ensures goes { result ≡ Found.Going → Asks (search_at way.new) }
    ensures readies { result ≡ Found.Ready → IsReady (search_at way.new) }
{
    let left = way.left;
    if is_marked(seen.before) {
        return move_to(way, left, true, led(seen.before));
    }
    let run = way.run;
    let cur = way.cur;
    meet(way, left, run, cur)
}

/// Marked nodes were to be unlinked.
#[inline(always)]
pub fn unlinked(way: &mut Way, seen: Seen) -> Found
    requires stage { way.old.stage ≡ stage.LeastUnlink }
    requires cur { way.old.cur < 2 ^ 23 }
    ensures search { (search_at way.new, result) ≡ fed (search_at way.old) seen }
    ensures goes { result ≡ Found.Going → Asks (search_at way.new) }
    ensures readies { result ≡ Found.Ready → IsReady (search_at way.new) }
{
    if !seen.won {
        return Found::Contended;
    }
    let cur = way.cur;
    reach(way, cur)
}

/// The key of the least node was loaded.
#[inline(always)]
pub fn keyed(way: &Way, seen: Seen) -> Found
    requires { way.now.stage ≡ stage.LeastKey }
    ensures { (search_at way.now, result) ≡ fed (search_at way.now) seen }
{
    let _ = way;
    Found::Answer(Outcome::Plain(Reply::Value(key_in(seen.before))))
}
