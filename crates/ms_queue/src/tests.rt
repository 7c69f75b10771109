//! Put, take and peek, walked step by step over the words of a memory.
use crate::offers::{add_stores_of, list_of};
use crate::search::{asked, begun, fed};
use crate::wrap::{wrap_asked, wrap_begun, wrap_fed};
use lin_report::{Client, Op, Outcome, Reply};
use ms_queue_form::{QueueSearch, QueueWrap};
use node_arena::opening_words;
use normal_traits::{Found, List, Stores, Wrapped};
use std::alloc::Global;
use std::test::Fail;
use step_memory::{Cells, Port, Request};

/// The word that names node 1 of block 1, one version after the first.
const LINKED: u64 = 33_554_437;

/// The modified bit of a word.
const BIT: u64 = 16_777_216;

fn load(at: u32) -> Request {
    Request::Load { at }
}

fn exchange(at: u32, from: u64, to: u64) -> Request {
    Request::Exchange { at, from, to }
}

fn op(code: u8, value: u32) -> Op {
    Op {
        code,
        key: 0,
        value,
    }
}

/// Makes the steps of a search, each of which has to ask for this, see this word and find this. Gives the
/// search afterwards, and None where a step is another.
fn walk(
    cells: &mut Cells,
    mut search: QueueSearch,
    steps: &[(Request, u64, Found)],
) -> Option<QueueSearch> {
    for &(request, before, found) in steps {
        let seen = cells.apply(request);
        let (after, now) = fed(search, seen);
        if asked(search) != request || seen.before != before || now != found {
            return None;
        }
        search = after;
    }
    Some(search)
}

/// The same for a wrap-up.
fn walk_wrap(
    cells: &mut Cells,
    mut wrap: QueueWrap,
    steps: &[(Request, u64, Wrapped)],
) -> Option<QueueWrap> {
    for &(request, before, wrapped) in steps {
        let seen = cells.apply(request);
        let (after, now) = wrap_fed(wrap, seen);
        if wrap_asked(wrap) != request || seen.before != before || now != wrapped {
            return None;
        }
        wrap = after;
    }
    Some(wrap)
}

/// Makes the stores before a list and the exchange of its one entry.
fn execute(cells: &mut Cells, stores: &Stores, list: &List) -> bool {
    for &(at, value) in stores.as_slice() {
        cells.apply(Request::Store { at, value });
    }
    match list.as_slice() {
        [entry] => cells
            .apply(exchange(entry.target, entry.from, entry.to))
            .won,
        _ => false,
    }
}

/// The words of a run with one block, the last of these at their places.
fn cells(alloc: Global, words: &[(u32, u64)]) -> Result<Cells, Fail> {
    let mut cells = Cells::new(opening_words(alloc, 1, Client::Queue)?);
    for &(at, value) in words {
        cells.apply(Request::Store { at, value });
    }
    Ok(cells)
}

#[test]
fn a_put_alone(rt: HostRuntime) -> Result<(), Fail> {
    let done = Wrapped::Done(Outcome::Plain(Reply::Done));
    let mut cells = cells(rt.alloc(), [].as_slice())?;
    let put = op(1, 7);
    let steps = [(load(21), 1, Found::Going), (load(46), 0, Found::Ready)];
    let ready = QueueSearch::PutReady { tail: 1, next: 0 };
    assert_eq!(rt; walk(&mut cells, begun(put), steps.as_slice()), Some(ready));
    let mut stores = Stores::new();
    add_stores_of(ready, put, 1, &mut stores);
    assert_eq!(rt; stores.as_slice(), [(77, 7), (78, 0)].as_slice());
    let list = list_of(ready, put, 1);
    assert!(rt; execute(&mut cells, &stores, &list));
    let (wrap, going) = wrap_begun(put, &list, 1);
    assert_eq!(rt; going, Wrapped::Going);
    let steps = [
        (load(21), 1, Wrapped::Going),
        (exchange(21, 1, LINKED), 1, done),
    ];
    assert_eq!(rt;
        walk_wrap(&mut cells, wrap, steps.as_slice()),
        Some(QueueWrap::Over)
    );
    for at in [46, 21] {
        assert_eq!(rt; cells.apply(load(at)).before, LINKED);
    }
    Ok(())
}

#[test]
fn two_takes_of_one_value(rt: HostRuntime) -> Result<(), Fail> {
    let empty = Found::Answer(Outcome::Plain(Reply::Empty));
    let words = [(46, LINKED), (21, LINKED), (77, 7)];
    let mut cells = cells(rt.alloc(), words.as_slice())?;
    let take = op(2, 0);
    let steps = [
        (load(20), 1, Found::Going),
        (load(21), LINKED, Found::Going),
        (load(46), LINKED, Found::Ready),
    ];
    let ready = walk(&mut cells, begun(take), steps.as_slice());
    let search = QueueSearch::TakeReady {
        head: 1,
        next: LINKED,
    };
    assert_eq!(rt; ready, Some(search));
    let mut stores = Stores::new();
    add_stores_of(search, take, 0, &mut stores);
    let list = list_of(search, take, 0);
    assert!(rt; stores.is_empty() && execute(&mut cells, &stores, &list));
    let value = Wrapped::Done(Outcome::ValueOf(5));
    assert_eq!(rt; wrap_begun(take, &list, 1), (QueueWrap::Over, value));
    assert_eq!(rt;
        wrap_begun(take, &list, 0),
        (QueueWrap::Over, Wrapped::Restart)
    );
    let steps = [
        (load(20), LINKED, Found::Going),
        (load(21), LINKED, Found::Going),
        (load(78), 0, empty),
    ];
    assert!(rt; walk(&mut cells, begun(take), steps.as_slice()).is_some());
    Ok(())
}

#[test]
fn the_tail_is_helped_on(rt: HostRuntime) -> Result<(), Fail> {
    for (code, places) in [(1, [].as_slice()), (2, [20].as_slice())] {
        let mut cells = cells(rt.alloc(), [(46, LINKED)].as_slice())?;
        let mut search = begun(op(code, 0));
        for at in places {
            let seen = cells.apply(load(*at));
            search = fed(search, seen).0;
        }
        let steps = [
            (load(21), 1, Found::Going),
            (load(46), LINKED, Found::Going),
            (exchange(21, 1, LINKED), 1, Found::Going),
        ];
        let anew = walk(&mut cells, search, steps.as_slice());
        assert_eq!(rt; anew, Some(begun(op(code, 0))));
        let lost = cells.apply(exchange(21, 1, LINKED));
        let helping = QueueSearch::PutHelp {
            tail: 1,
            next: LINKED,
        };
        assert_eq!(rt; fed(helping, lost), (helping, Found::Contended));
    }
    Ok(())
}

#[test]
fn a_peek_looks_at_the_next_word_alone(rt: HostRuntime) -> Result<(), Fail> {
    let empty = Found::Answer(Outcome::Plain(Reply::Empty));
    let value = Found::Answer(Outcome::ValueOf(5));
    let peek = op(9, 0);
    for (words, head, next, answer) in [
        ([].as_slice(), 1, 0, empty),
        ([(46, BIT)].as_slice(), 1, BIT, empty),
        // The tail is still at the dummy node.
        ([(46, LINKED)].as_slice(), 1, LINKED, value),
        (
            [(20, BIT + 1), (46, LINKED)].as_slice(),
            BIT + 1,
            LINKED,
            value,
        ),
        (
            [(21, LINKED), (46, LINKED + BIT)].as_slice(),
            1,
            LINKED + BIT,
            value,
        ),
    ] {
        let mut cells = cells(rt.alloc(), words)?;
        let steps = [(load(20), head, Found::Going), (load(46), next, answer)];
        let after = walk(&mut cells, begun(peek), steps.as_slice());
        assert_eq!(rt; after, Some(QueueSearch::PeekNext { head }));
        assert_eq!(rt; cells.apply(load(20)).before, head);
    }
    Ok(())
}

#[test]
fn a_peek_between_a_link_and_a_take(rt: HostRuntime) -> Result<(), Fail> {
    let value = Found::Answer(Outcome::ValueOf(5));
    let mut cells = cells(rt.alloc(), [].as_slice())?;
    let begins = walk(
        &mut cells,
        begun(op(9, 0)),
        [(load(20), 1, Found::Going)].as_slice(),
    );
    assert_eq!(rt; begins, Some(QueueSearch::PeekNext { head: 1 }));
    for at in [46, 21, 20] {
        cells.apply(Request::Store { at, value: LINKED });
    }
    let ends = walk(
        &mut cells,
        QueueSearch::PeekNext { head: 1 },
        [(load(46), LINKED, value)].as_slice(),
    );
    assert_eq!(rt; ends, Some(QueueSearch::PeekNext { head: 1 }));
    Ok(())
}
