//! A structure in normalized form.

use crate::lists::{List, Stores};
use lin_report::{NoMemory, Op, Outcome};
use std::alloc::Global;
use step_memory::{Request, Seen};

/// What a step of a search has found.
#[derive(Clone, Copy, Debug, PartialEq, Eq)]
pub enum Found {
    /// The search goes on.
    Going,
    /// A list can be named.
    Ready,
    /// The call only observes, and this is its outcome.
    Answer(Outcome),
    /// Another call stands in the way: a word that would be listed or exchanged has its modified bit set,
    /// an exchange was lost, or another call's help came first.
    Contended,
}

/// What a step of a wrap-up has found.
#[derive(Clone, Copy, Debug, PartialEq, Eq)]
pub enum Wrapped {
    /// The wrap-up goes on.
    Going,
    /// The call is done, with this outcome.
    Done(Outcome),
    /// The list changed nothing and never will: a new search begins.
    Restart,
}

/// A structure as a generator and a wrap-up. Each function's answer is a definition of its arguments
/// alone, and the laws say what the steps amount to (`specs/Laws.antt`).
pub trait Normalized {
    ghost use Rattle.std.specs.Prelude.{◌≡◌, ◌+◌, ◌<◌, ◌≤◌, ◌^◌, ◌++◌, IsTrue, IfOk, length};
    ghost use Rattle.node_arena.specs.Opening.{opening_words};
    ghost use Rattle.normal_traits.specs.NormalForm.{NormalForm};
    ghost use Rattle.normal_traits.specs.declared.form.Found.TheVariants as found;
    ghost use Rattle.normal_traits.specs.declared.form.Wrapped.TheVariants as wrapped;

    /// The state of a generator between two of its steps.
    type Search: Drop + Send;

    /// The state of a wrap-up between two of its steps.
    type Wrap: Drop + Send;

    /// The functions below as definitions, and what their states mean.
    ghost form: { NormalForm Self.Search Self.Wrap };

    /// The words with which a run opens, with blocks 0 to CAP.
    fn opening(alloc: Global, cap: u32) -> Result<Vec<u64>, NoMemory>
        requires some_blocks { 1 ≤ cap }
        requires cap_in_range { cap ≤ 65536 }
        ensures words { IfOk result (λ words. words.items ≡ opening_words form.opening cap) };

    /// Whether the operation is one of its object.
    fn serves(op: Op) -> bool
        ensures { result ≡ form.object.serves op };

    /// Whether a fast call of this operation uses a block.
    fn needs_block(op: Op) -> bool
        ensures { result ≡ form.needs_block op };

    /// Starts a generator.
    fn begin(op: Op) -> Self::Search
        requires command { IsTrue (form.object.serves op) }
        ensures search { result ≡ form.begin_of op }
        ensures asks { form.asks result };

    /// The generator's next step.
    fn request(search: &Self::Search) -> Request
        requires { form.asks search.now }
        ensures { result ≡ form.request_of search.now };

    /// Takes what the step saw, and says what was found.
    fn feed(search: &mut Self::Search, seen: Seen) -> Found
        requires { form.asks search.old }
        ensures found { result ≡ form.found_of search.old seen }
        ensures search { search.new ≡ form.feed_of search.old seen }
        ensures goes { result ≡ found.Going → form.asks search.new }
        ensures readies { result ≡ found.Ready → form.is_ready search.new };

    /// The list that a ready generator names.
    fn list(search: &Self::Search, op: Op, block: u32) -> List
        requires ready { form.is_ready search.now }
        requires command { IsTrue (form.object.serves op) }
        requires block { block < 2 ^ 17 }
        ensures list { result.items ≡ (form.offer_of search.now op block).entries }
        ensures some { 0 < length result.items };

    /// Adds the stores into the block that come before that list, at most twenty.
    fn stores(search: &Self::Search, op: Op, block: u32, stores: &mut Stores)
        requires ready { form.is_ready search.now }
        requires command { IsTrue (form.object.serves op) }
        requires block { block < 2 ^ 17 }
        requires room { length stores.old.items ≤ 10 }
        ensures stores { stores.new.items ≡ stores.old.items ++ (form.offer_of search.now op block).stores }
        ensures few { length stores.new.items ≤ length stores.old.items + 20 };

    /// Starts the wrap-up of a list that stopped at this entry.
    fn begin_wrap(op: Op, list: &List, stop: u32) -> (Self::Wrap, Wrapped)
        requires { IsTrue (form.object.serves op) }
        ensures wrap { result.0 ≡ form.begin_wrap_of op list.now.items stop }
        ensures begun { result.1 ≡ form.wrap_begun_of op list.now.items stop }
        ensures goes { result.1 ≡ wrapped.Going → form.wraps result.0 };

    /// The wrap-up's next step.
    fn wrap_request(wrap: &Self::Wrap) -> Request
        requires { form.wraps wrap.now }
        ensures { result ≡ form.wrap_request_of wrap.now };

    /// Takes what the step saw, and says what came of it.
    fn feed_wrap(wrap: &mut Self::Wrap, seen: Seen) -> Wrapped
        requires { form.wraps wrap.old }
        ensures wrapped { result ≡ form.wrap_found_of wrap.old seen }
        ensures wrap { wrap.new ≡ form.feed_wrap_of wrap.old seen }
        ensures goes { result ≡ wrapped.Going → form.wraps wrap.new };

    ghost use Rattle.normal_traits.specs.Laws.{Laws};

    /// What the steps amount to.
    ghost laws: { Laws form };
}
