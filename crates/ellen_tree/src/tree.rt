//! The tree as a structure in normalized form.

use crate::offers::{add_stores_of, list_of, may_list};
use crate::search::{asked, begun, fed};
use crate::wrap::{begun_wrap, wrap_begun, wrap_fed};
use ellen_tree_form::TreeSearch;
use lin_report::commands::is_command;
use lin_report::{Client, NoMemory, Op};
use node_arena::opening_words;
use normal_traits::{Found, List, Normalized, Stores, Wrapped};
use std::alloc::Global;
use step_memory::{Request, Seen};
use tree_help::Help;

/// The tree. Its root is node 2 of block 0.
pub struct EllenTree;

impl Normalized for EllenTree {
    ghost use Rattle.ellen_tree_form.specs.Form.{tree_form};
    ghost use Rattle.ellen_tree.specs.ProvedLaws.{tree_laws};

    type Search = TreeSearch;

    type Wrap = Help;

    ghost form = { tree_form };

    fn opening(alloc: Global, cap: u32) -> Result<Vec<u64>, NoMemory> {
        opening_words(alloc, cap, Client::Tree)
    }

    fn serves(op: Op) -> bool {
        is_command(Client::Tree, op)
    }

    fn needs_block(op: Op) -> bool {
        may_list(op)
    }

    fn begin(op: Op) -> TreeSearch {
        begun(op)
    }

    fn request(search: &TreeSearch) -> Request {
        asked(*search)
    }

    fn feed(search: &mut TreeSearch, seen: Seen) -> Found {
        let (after, found) = fed(*search, seen);
        *search = after;
        found
    }

    fn list(search: &TreeSearch, op: Op, block: u32) -> List {
        list_of(*search, op, block)
    }

    fn stores(search: &TreeSearch, op: Op, block: u32, stores: &mut Stores) {
        add_stores_of(*search, op, block, stores);
    }

    fn begin_wrap(op: Op, list: &List, stop: u32) -> (Help, Wrapped) {
        (begun_wrap(op, list), wrap_begun(op, list, stop))
    }

    fn wrap_request(wrap: &Help) -> Request {
        wrap.request()
    }

    fn feed_wrap(wrap: &mut Help, seen: Seen) -> Wrapped {
        wrap_fed(wrap, seen)
    }

    ghost laws = { tree_laws };
}
