//! The stack as a structure in normalized form.

use crate::offers::{add_stores_of, list_of};
use crate::search::{asked, begun, fed};
use crate::wrap::wrap_begun;
use lin_report::calls::{PUT, TAKE};
use lin_report::{NoMemory, Op, Outcome, Reply};
use node_arena::opening::zeros;
use normal_traits::{Found, List, Normalized, Stores, Wrapped};
use std::alloc::Global;
use step_memory::{Request, Seen};
use treiber_stack_form::states::TOP;
use treiber_stack_form::{StackSearch, StackWrap};

/// The stack. Its top stands at place 20, and is null where it is empty.
pub struct TreiberStack;

impl Normalized for TreiberStack {
    ghost use Rattle.treiber_stack_form.specs.Form.{stack_form};
    ghost use Rattle.treiber_stack.specs.ProvedLaws.{stack_laws};

    type Search = StackSearch;

    type Wrap = StackWrap;

    ghost form = { stack_form };

    #[tactic(auto, using(crate::proofs::Opening::zeros_are))]
    fn opening(alloc: Global, cap: u32) -> Result<Vec<u64>, NoMemory> {
        zeros(alloc, cap)
    }

    fn serves(op: Op) -> bool {
        match op.code {
            PUT => op.key == 0,
            TAKE => op.key == 0 && op.value == 0,
            _ => false,
        }
    }

    fn needs_block(op: Op) -> bool {
        op.code == PUT
    }

    fn begin(op: Op) -> StackSearch {
        begun(op)
    }

    fn request(search: &StackSearch) -> Request {
        asked(*search)
    }

    fn feed(search: &mut StackSearch, seen: Seen) -> Found {
        let (after, found) = fed(*search, seen);
        *search = after;
        found
    }

    fn list(search: &StackSearch, op: Op, block: u32) -> List {
        list_of(*search, op, block)
    }

    fn stores(search: &StackSearch, op: Op, block: u32, stores: &mut Stores) {
        add_stores_of(*search, op, block, stores);
    }

    fn begin_wrap(op: Op, list: &List, stop: u32) -> (StackWrap, Wrapped) {
        (StackWrap::Over, wrap_begun(op, list, stop))
    }

    fn wrap_request(wrap: &StackWrap) -> Request {
        Request::Load { at: TOP }
    }

    fn feed_wrap(wrap: &mut StackWrap, seen: Seen) -> Wrapped {
        Wrapped::Done(Outcome::Plain(Reply::Done))
    }

    ghost laws = { stack_laws };
}
