//! The steps of a search.
ghost use Rattle.std.specs.Prelude.{◌≡◌, ◌<◌, ◌^◌};
ghost use Rattle.word_fields.specs.Versioned.{is_modified, versioned_value};
ghost use Rattle.treiber_stack_form.specs.Steps.{begun, asked, fed, met_by_put, met_by_take, next_place};

use lin_report::calls::PUT;
use lin_report::{Op, Outcome, Reply};
use node_arena::node_place;
use node_arena::places::NODE_NEXT;
use normal_traits::Found;
use step_memory::{Request, Seen};
use treiber_stack_form::StackSearch;
use treiber_stack_form::states::TOP;
use word_fields::VersionedWord;

/// The reference that a word has.
#[tactic(auto, using(word_fields::proofs::ChangedWords::versioned_words))]
pub fn node_of(word: u64) -> u32
    ensures value { result ≡ versioned_value word }
    ensures small { result < 2 ^ 24 }
{
    VersionedWord::unpack(word).value
}

/// Whether the modified bit of a word is set.
fn is_modified(word: u64) -> bool
    ensures { result ≡ is_modified word }
{
    VersionedWord::unpack(word).modified
}

/// The place of the next word of the node that a word names.
fn next_place(word: u64) -> u32
    ensures { result ≡ next_place word }
{
    node_place(node_of(word), NODE_NEXT)
}

/// A search that begins.
pub fn begun(op: Op) -> StackSearch
    ensures { result ≡ begun op }
{
    match op.code {
        PUT => StackSearch::PutTop,
        _ => StackSearch::TakeTop,
    }
}

/// What a search asks for.
pub fn asked(search: StackSearch) -> Request
    ensures { result ≡ asked search }
{
    match search {
        StackSearch::TakeNext { top } => Request::Load {
            at: next_place(top),
        },
        _ => Request::Load { at: TOP },
    }
}

/// A put has loaded the top.
fn met_by_put(top: u64) -> (StackSearch, Found)
    ensures { result ≡ met_by_put top }
{
    if is_modified(top) {
        (StackSearch::PutTop, Found::Contended)
    } else {
        (StackSearch::PutReady { top }, Found::Ready)
    }
}

/// A take has loaded the top.
fn met_by_take(top: u64) -> (StackSearch, Found)
    ensures { result ≡ met_by_take top }
{
    if node_of(top) == 0 {
        let empty = Found::Answer(Outcome::Plain(Reply::Empty));
        return (StackSearch::TakeTop, empty);
    }
    if is_modified(top) {
        (StackSearch::TakeTop, Found::Contended)
    } else {
        (StackSearch::TakeNext { top }, Found::Going)
    }
}

/// What a search is after its step, and what it found.
pub fn fed(search: StackSearch, seen: Seen) -> (StackSearch, Found)
    ensures { result ≡ fed search seen }
{
    match search {
        StackSearch::PutTop => met_by_put(seen.before),
        StackSearch::TakeTop => met_by_take(seen.before),
        StackSearch::TakeNext { top } => {
            let next = seen.before;
            (StackSearch::TakeReady { top, next }, Found::Ready)
        }
        StackSearch::PutReady { .. } | StackSearch::TakeReady { .. } => (search, Found::Ready),
    }
}
