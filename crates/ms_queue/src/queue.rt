//! The queue as a structure in normalized form.

use crate::offers::{add_stores_of, list_of};
use crate::search::{asked, begun, fed};
use crate::wrap::{wrap_asked, wrap_begun, wrap_fed};
use lin_report::calls::PUT;
use lin_report::commands::is_command;
use lin_report::{Client, NoMemory, Op};
use ms_queue_form::{QueueSearch, QueueWrap};
use node_arena::opening_words;
use normal_traits::{Found, List, Normalized, Stores, Wrapped};
use std::alloc::Global;
use step_memory::{Request, Seen};

/// The queue. Its head and its tail stand at places 20 and 21, and block 0 has the first dummy node.
pub struct MsQueue;

impl Normalized for MsQueue {
    ghost use Rattle.ms_queue_form.specs.Form.{queue_form};
    ghost use Rattle.ms_queue.specs.ProvedLaws.{queue_laws};

    type Search = QueueSearch;

    type Wrap = QueueWrap;

    ghost form = { queue_form };

    fn opening(alloc: Global, cap: u32) -> Result<Vec<u64>, NoMemory> {
        opening_words(alloc, cap, Client::Queue)
    }

    fn serves(op: Op) -> bool {
        is_command(Client::Queue, op)
    }

    fn needs_block(op: Op) -> bool {
        op.code == PUT
    }

    fn begin(op: Op) -> QueueSearch {
        begun(op)
    }

    #[inline(always)]
    fn request(search: &QueueSearch) -> Request {
        asked(*search)
    }

    #[inline(always)]
    fn feed(search: &mut QueueSearch, seen: Seen) -> Found {
        let (after, found) = fed(*search, seen);
        *search = after;
        found
    }

    fn list(search: &QueueSearch, op: Op, block: u32) -> List {
        list_of(*search, op, block)
    }

    fn stores(search: &QueueSearch, op: Op, block: u32, stores: &mut Stores) {
        add_stores_of(*search, op, block, stores);
    }

    fn begin_wrap(op: Op, list: &List, stop: u32) -> (QueueWrap, Wrapped) {
        wrap_begun(op, list, stop)
    }

    fn wrap_request(wrap: &QueueWrap) -> Request {
        wrap_asked(*wrap)
    }

    fn feed_wrap(wrap: &mut QueueWrap, seen: Seen) -> Wrapped {
        let (after, wrapped) = wrap_fed(*wrap, seen);
        *wrap = after;
        wrapped
    }

    ghost laws = { queue_laws };
}
