//! The steps of a search.
ghost use Rattle.std.specs.Prelude.{◌≡◌, ◌<◌, ◌^◌};
ghost use Rattle.harris_list_form.specs.Search.{Asks, IsReady, aim_of, begun_at, asked, fed, sought_of};
ghost use Rattle.harris_list_form.specs.declared.states.ListSearch.TheVariants.{Start, LeastStart};
ghost use Rattle.harris_list.specs.declared.way.Stage.TheVariants as stage;
ghost use Rattle.harris_list.specs.Ways.{search_at};

use crate::deciding::{End, decide, finish, move_on};
use crate::least;
use crate::way::{Stage, Way};
use crate::words::{is_marked, key_place, leading, led, next_place};
use harris_list_form::{Aim, Left, Sought};
use lin_report::Op;
use lin_report::calls::{ADD, DEL, MIN};
use normal_traits::Found;
use step_memory::{Request, Seen};

/// What the search of an operation is for.
#[inline(always)]
fn aim_of(op: Op) -> Aim
    ensures { result ≡ aim_of op }
{
    match op.code {
        ADD => Aim::Add,
        DEL => Aim::Del,
        _ => Aim::Has,
    }
}

/// The way of a search of a key that begins at the place where a list begins.
#[inline(always)]
pub fn key_begun_at(start: u32, op: Op) -> Way
    ensures search { search_at result ≡ Start (sought_of op) start }
    ensures sought { result.sought ≡ sought_of op }
{
    Way {
        sought: Sought {
            aim: aim_of(op),
            key: op.key,
        },
        left: Left {
            place: start,
            word: 0,
        },
        run: false,
        cur: 0,
        next: 0,
        found: false,
        stage: Stage::Start,
    }
}

/// The way of a search of the least key that begins there.
#[inline(always)]
pub fn least_begun_at(start: u32, op: Op) -> Way
    ensures { search_at result ≡ LeastStart start }
{
    Way {
        stage: Stage::LeastStart,
        ..key_begun_at(start, op)
    }
}

/// The way of the search of an operation that begins there.
#[inline(always)]
pub fn begun_at(start: u32, op: Op) -> Way
    ensures { search_at result ≡ begun_at start op }
{
    if op.code == MIN {
        least_begun_at(start, op)
    } else {
        key_begun_at(start, op)
    }
}

/// What a search asks for.
#[inline(always)]
pub fn asked(way: &Way) -> Request
    requires { Asks (search_at way.now) }
    ensures { result ≡ asked (search_at way.now) }
{
    match way.stage {
        Stage::Start | Stage::LeastStart => Request::Load { at: way.left.place },
        Stage::Next | Stage::LeastNext => Request::Load {
            at: next_place(way.cur),
        },
        Stage::Key | Stage::LeastKey => Request::Load {
            at: key_place(way.cur),
        },
        Stage::Unlink | Stage::LeastUnlink => Request::Exchange {
            at: way.left.place,
            from: way.left.word,
            to: leading(way.left.word, way.cur),
        },
        Stage::AddReady | Stage::DelReady => unreachable!(),
    }
}

/// The beginning of the list was loaded.
#[inline(always)]
fn met_start(way: &mut Way, seen: Seen) -> Found
    requires { way.old.stage ≡ stage.Start }
    ensures search { (search_at way.new, result) ≡ fed (search_at way.old) seen }
    ensures goes { result ≡ Found.Going → Asks (search_at way.new) }
    ensures readies { result ≡ Found.Ready → IsReady (search_at way.new) }
{
    let left = Left {
        place: way.left.place,
        word: seen.before,
    };
    move_on(way, left, false, led(seen.before))
}

/// The next word of a node was loaded.
#[inline(always)]
fn met_next(way: &mut Way, seen: Seen) -> Found
    requires stage { way.old.stage ≡ stage.Next }
    requires cur { way.old.cur < 2 ^ 23 }
    ensures search { (search_at way.new, result) ≡ fed (search_at way.old) seen }
    ensures goes { result ≡ Found.Going → Asks (search_at way.new) }
    ensures readies { result ≡ Found.Ready → IsReady (search_at way.new) }
{
    let next = seen.before;
    if is_marked(next) {
        let left = way.left;
        return move_on(way, left, true, led(next));
    }
    way.next = next;
    way.stage = Stage::Key;
    Found::Going
}

/// The key of a node was loaded.
#[inline(always)]
fn met_key(way: &mut Way, seen: Seen) -> Found
    requires stage { way.old.stage ≡ stage.Key }
    requires cur { way.old.cur < 2 ^ 23 }
    ensures search { (search_at way.new, result) ≡ fed (search_at way.old) seen }
    ensures goes { result ≡ Found.Going → Asks (search_at way.new) }
    ensures readies { result ≡ Found.Ready → IsReady (search_at way.new) }
{
    let key = seen.before;
    let wanted = u64::from(way.sought.key);
    let next = way.next;
    if key >= wanted {
        let run = way.run;
        let end = End {
            left: way.left,
            cur: way.cur,
            next,
            found: key == wanted,
        };
        return finish(way, run, end);
    }
    let left = Left {
        place: next_place(way.cur),
        word: next,
    };
    move_on(way, left, false, led(next))
}

/// Marked nodes were to be unlinked.
#[inline(always)]
pub fn unlinked(way: &mut Way, seen: Seen) -> Found
    requires stage { way.old.stage ≡ stage.Unlink }
    requires cur { way.old.cur < 2 ^ 23 }
    ensures search { (search_at way.new, result) ≡ fed (search_at way.old) seen }
    ensures goes { result ≡ Found.Going → Asks (search_at way.new) }
    ensures readies { result ≡ Found.Ready → IsReady (search_at way.new) }
{
    if !seen.won {
        return Found::Contended;
    }
    let left = Left {
        place: way.left.place,
        word: leading(way.left.word, way.cur),
    };
    let end = End {
        left,
        cur: way.cur,
        next: way.next,
        found: way.found,
    };
    decide(way, end)
}

/// Takes what the step saw, and says what was found.
#[inline(always)]
pub fn fed(way: &mut Way, seen: Seen) -> Found
    requires { Asks (search_at way.old) }
    ensures search { (search_at way.new, result) ≡ fed (search_at way.old) seen }
    ensures goes { result ≡ Found.Going → Asks (search_at way.new) }
    ensures readies { result ≡ Found.Ready → IsReady (search_at way.new) }
{
    match way.stage {
        Stage::Start => met_start(way, seen),
        Stage::Next => met_next(way, seen),
        Stage::Key => met_key(way, seen),
        Stage::Unlink => unlinked(way, seen),
        Stage::LeastStart => least::started(way, seen),
        Stage::LeastNext => least::nexted(way, seen),
        Stage::LeastUnlink => least::unlinked(way, seen),
        Stage::LeastKey => least::keyed(way, seen),
        Stage::AddReady | Stage::DelReady => unreachable!(),
    }
}
