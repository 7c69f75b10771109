//! The steps of a search.
ghost use Rattle.std.specs.Prelude.{◌≡◌, true};
ghost use Rattle.ms_queue_form.specs.Search.{begun, asked, fed, met_by_put, met_by_take, told_by_peek};

use crate::words::{is_modified, moved, next_place, node_of};
use lin_report::calls::{PEEK, PUT};
use lin_report::{Op, Outcome, Reply};
use ms_queue_form::QueueSearch;
use node_arena::places::{HEAD, TAIL};
use normal_traits::Found;
use step_memory::{Request, Seen};

/// A search that begins.
pub fn begun(op: Op) -> QueueSearch
    ensures { result ≡ begun op }
{
    match op.code {
        PUT => QueueSearch::PutTail,
        PEEK => QueueSearch::PeekHead,
        _ => QueueSearch::TakeHead,
    }
}

/// The exchange that moves the tail to the node that the next word names.
#[inline(always)]
fn help(tail: u64, next: u64) -> Request
    ensures { result ≡ asked (QueueSearch.PutHelp tail next) }
{
    Request::Exchange {
        at: TAIL,
        from: tail,
        to: moved(tail, next),
    }
}

/// What a search asks for.
#[inline(always)]
pub fn asked(search: QueueSearch) -> Request
    ensures { result ≡ asked search }
{
    match search {
        QueueSearch::PutTail | QueueSearch::PutReady { .. } | QueueSearch::TakeTail { .. } => {
            Request::Load { at: TAIL }
        }
        QueueSearch::TakeHead | QueueSearch::TakeReady { .. } | QueueSearch::PeekHead => {
            Request::Load { at: HEAD }
        }
        QueueSearch::PutNext { tail } => Request::Load {
            at: next_place(tail),
        },
        QueueSearch::TakeNext { head, .. } | QueueSearch::PeekNext { head } => Request::Load {
            at: next_place(head),
        },
        QueueSearch::PutHelp { tail, next } | QueueSearch::TakeHelp { tail, next } => {
            help(tail, next)
        }
    }
}

/// A put has loaded the next word of the tail's node.
#[inline(always)]
fn met_by_put(tail: u64, next: u64) -> (QueueSearch, Found)
    ensures { result ≡ met_by_put tail next }
{
    if node_of(next) != 0 {
        return (QueueSearch::PutHelp { tail, next }, Found::Going);
    }
    if is_modified(next) {
        (QueueSearch::PutNext { tail }, Found::Contended)
    } else {
        (QueueSearch::PutReady { tail, next }, Found::Ready)
    }
}

/// A take has loaded the next word of the head's node.
#[inline(always)]
fn met_by_take(head: u64, tail: u64, next: u64) -> (QueueSearch, Found)
    ensures { result ≡ met_by_take head tail next }
{
    if node_of(next) == 0 {
        let empty = Found::Answer(Outcome::Plain(Reply::Empty));
        return (QueueSearch::TakeNext { head, tail }, empty);
    }
    if node_of(tail) == node_of(head) {
        (QueueSearch::TakeHelp { tail, next }, Found::Going)
    } else {
        (QueueSearch::TakeReady { head, next }, Found::Ready)
    }
}

/// A take has loaded the head.
#[inline(always)]
fn met_head(head: u64) -> (QueueSearch, Found)
    ensures { result ≡ fed QueueSearch.TakeHead (record { before = head; won = true }) }
{
    if is_modified(head) {
        (QueueSearch::TakeHead, Found::Contended)
    } else {
        (QueueSearch::TakeTail { head }, Found::Going)
    }
}

/// What a peek tells by the next word of the head's node.
#[inline(always)]
pub fn told_by_peek(next: u64) -> Outcome
    ensures { result ≡ told_by_peek next }
{
    match node_of(next) {
        0 => Outcome::Plain(Reply::Empty),
        first => Outcome::ValueOf(first),
    }
}

/// What a search is after its step, and what it found.
#[inline(always)]
pub fn fed(search: QueueSearch, seen: Seen) -> (QueueSearch, Found)
    ensures { result ≡ fed search seen }
{
    let before = seen.before;
    match search {
        QueueSearch::PutTail => (QueueSearch::PutNext { tail: before }, Found::Going),
        QueueSearch::PutNext { tail } => met_by_put(tail, before),
        QueueSearch::PutHelp { .. } if seen.won => (QueueSearch::PutTail, Found::Going),
        QueueSearch::TakeHead => met_head(before),
        QueueSearch::TakeTail { head } => {
            let next = QueueSearch::TakeNext { head, tail: before };
            (next, Found::Going)
        }
        QueueSearch::TakeNext { head, tail } => met_by_take(head, tail, before),
        QueueSearch::TakeHelp { .. } if seen.won => (QueueSearch::TakeHead, Found::Going),
        QueueSearch::PeekHead => (QueueSearch::PeekNext { head: before }, Found::Going),
        QueueSearch::PeekNext { .. } => (search, Found::Answer(told_by_peek(before))),
        QueueSearch::PutHelp { .. } | QueueSearch::TakeHelp { .. } => (search, Found::Contended),
        QueueSearch::PutReady { .. } | QueueSearch::TakeReady { .. } => (search, Found::Ready),
    }
}
