//! The list as a structure in normalized form.

use crate::seeking::Seeking;
use harris_list_form::ListWrap;
use harris_list_form::states::LIST_START;
use lin_report::calls::ADD;
use lin_report::commands::is_command;
use lin_report::{Client, NoMemory, Op, Outcome, Reply};
use node_arena::opening_words;
use normal_traits::{Found, List, Normalized, Stores, Wrapped};
use std::alloc::Global;
use step_memory::{Request, Seen};
use whole_calls::{Seeks, Steps};

/// The list. It begins at place 46, the next word of node 1 of block 0.
pub struct HarrisList;

impl Normalized for HarrisList {
    ghost use Rattle.harris_list_form.specs.Lists.{the_list};
    ghost use Rattle.harris_list_form.specs.Form.{list_form};
    ghost use Rattle.harris_list.specs.ProvedLaws.{list_laws};

    type Search = Seeking;

    type Wrap = ListWrap;

    ghost form = { list_form the_list };

    fn opening(alloc: Global, cap: u32) -> Result<Vec<u64>, NoMemory> {
        opening_words(alloc, cap, Client::List)
    }

    fn serves(op: Op) -> bool {
        is_command(Client::List, op)
    }

    fn needs_block(op: Op) -> bool {
        op.code == ADD
    }

    fn begin(op: Op) -> Seeking {
        Seeking::begun_at(LIST_START, op)
    }

    #[inline(always)]
    fn request(search: &Seeking) -> Request {
        search.asked()
    }

    #[inline(always)]
    fn feed(search: &mut Seeking, seen: Seen) -> Found {
        search.feed(seen)
    }

    fn list(search: &Seeking, op: Op, block: u32) -> List {
        search.list(op, block)
    }

    fn stores(search: &Seeking, op: Op, block: u32, stores: &mut Stores) {
        search.stores(op, block, stores);
    }

    fn begin_wrap(_op: Op, _list: &List, stop: u32) -> (ListWrap, Wrapped) {
        let wrapped = if stop == 0 {
            Wrapped::Restart
        } else {
            Wrapped::Done(Outcome::Plain(Reply::Yes))
        };
        (ListWrap::Over, wrapped)
    }

    fn wrap_request(_wrap: &ListWrap) -> Request {
        Request::Load { at: LIST_START }
    }

    fn feed_wrap(_wrap: &mut ListWrap, _seen: Seen) -> Wrapped {
        Wrapped::Done(Outcome::Plain(Reply::Yes))
    }

    ghost laws = { list_laws };
}

impl Seeks for HarrisList {
    #[inline(always)]
    fn search<P: Steps<HarrisList>>(op: Op, port: &mut P) -> (Seeking, Found) {
        Seeking::sought_from::<HarrisList, P>(LIST_START, op, port)
    }
}
