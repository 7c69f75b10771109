//! What a search comes to at the end of its way.
ghost use Rattle.std.specs.Prelude.{◌≡◌, ◌<◌, ◌^◌};
ghost use Rattle.harris_list_form.specs.Search.{Asks, IsReady, decided, decided_absent, decided_found, finished, moved_on};
ghost use Rattle.harris_list.specs.Ways.{search_at};

use crate::way::{Stage, Way};
use crate::words::is_modified;
use harris_list_form::{Aim, Left};
use lin_report::{Outcome, Reply};
use normal_traits::Found;

/// The end of a way: the left word, and the node that was come to, with its next word and whether its key is
/// the one that is sought. At the end of the list `cur` is null.
#[derive(Clone, Copy)]
pub struct End {
    pub left: Left,
    pub cur: u32,
    pub next: u64,
    pub found: bool,
}

/// The key is absent: the left word leads to a node of a higher key or to the end. A search that stays where
/// it was is over.
#[inline(always)]
fn decide_absent(way: &mut Way, left: Left, cur: u32) -> Found
    requires { cur < 2 ^ 23 }
    ensures search { (search_at way.new, result) ≡ decided_absent (search_at way.old) way.old.sought.aim left cur }
    ensures goes { result ≡ Found.Going → Asks (search_at way.new) }
    ensures readies { result ≡ Found.Ready → IsReady (search_at way.new) }
{
    match way.sought.aim {
        Aim::Add if is_modified(left.word) => Found::Contended,
        Aim::Add => {
            way.left = left;
            way.cur = cur;
            way.stage = Stage::AddReady;
            Found::Ready
        }
        Aim::Del | Aim::Has => Found::Answer(Outcome::Plain(Reply::No)),
    }
}

/// The key is that of the node to which the left word leads.
#[inline(always)]
fn decide_found(way: &mut Way, left: Left, cur: u32, next: u64) -> Found
    requires { cur < 2 ^ 23 }
    ensures search { (search_at way.new, result) ≡ decided_found (search_at way.old) way.old.sought.aim left cur next }
    ensures goes { result ≡ Found.Going → Asks (search_at way.new) }
    ensures readies { result ≡ Found.Ready → IsReady (search_at way.new) }
{
    match way.sought.aim {
        Aim::Add => Found::Answer(Outcome::Plain(Reply::No)),
        Aim::Del if is_modified(left.word) || is_modified(next) => Found::Contended,
        Aim::Del => {
            way.left = left;
            way.cur = cur;
            way.next = next;
            way.stage = Stage::DelReady;
            Found::Ready
        }
        Aim::Has => Found::Answer(Outcome::Plain(Reply::Yes)),
    }
}

/// No marked node is left between the left word and the node that was come to, or the end.
#[inline(always)]
pub fn decide(way: &mut Way, end: End) -> Found
    requires { end.cur < 2 ^ 23 }
    ensures search { (search_at way.new, result) ≡ decided (search_at way.old) way.old.sought end.left end.cur end.next end.found }
    ensures goes { result ≡ Found.Going → Asks (search_at way.new) }
    ensures readies { result ≡ Found.Ready → IsReady (search_at way.new) }
{
    if end.found {
        decide_found(way, end.left, end.cur, end.next)
    } else {
        decide_absent(way, end.left, end.cur)
    }
}

/// The search has come to the end of its way. Marked nodes on the way are unlinked first.
#[inline(always)]
pub fn finish(way: &mut Way, run: bool, end: End) -> Found
    requires { end.cur < 2 ^ 23 }
    ensures search { (search_at way.new, result) ≡ finished (search_at way.old) way.old.sought end.left run end.cur end.next end.found }
    ensures goes { result ≡ Found.Going → Asks (search_at way.new) }
    ensures readies { result ≡ Found.Ready → IsReady (search_at way.new) }
{
    if !run {
        return decide(way, end);
    }
    if is_modified(end.left.word) {
        return Found::Contended;
    }
    way.left = end.left;
    way.cur = end.cur;
    way.next = end.next;
    way.found = end.found;
    way.stage = Stage::Unlink;
    Found::Going
}

/// The search goes on to a node, if there is one.
#[inline(always)]
pub fn move_on(way: &mut Way, left: Left, run: bool, cur: u32) -> Found
    requires { cur < 2 ^ 23 }
    ensures search { (search_at way.new, result) ≡ moved_on (search_at way.old) way.old.sought left run cur }
    ensures goes { result ≡ Found.Going → Asks (search_at way.new) }
    ensures readies { result ≡ Found.Ready → IsReady (search_at way.new) }
{
    if cur == 0 {
        let end = End {
            left,
            cur,
            next: 0,
            found: false,
        };
        return finish(way, run, end);
    }
    way.left = left;
    way.run = run;
    way.cur = cur;
    way.stage = Stage::Next;
    Found::Going
}
