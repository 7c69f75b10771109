//! A search of the list, as contracts see it.
ghost use Rattle.std.specs.Prelude.{◌≡◌, ◌+◌, ◌<◌, ◌≤◌, ◌^◌, ◌++◌, length};
ghost use Rattle.fast_slow_engine.specs.declared.phases.Phase.TheVariants.{Generate};
ghost use Rattle.fast_slow_engine.specs.declared.phases.Generating.TheVariants.{Search};
ghost use Rattle.fast_slow_engine.specs.PhaseTable.{searched};
ghost use Rattle.harris_list_form.specs.Search.{Asks, IsReady, asked, begun_at, fed, offered};
ghost use Rattle.harris_list_form.specs.Form.{list_form};

use crate::list_steps::ListSteps;
use crate::offers::{add_stores_of, list_of};
use crate::search::{asked, begun_at, fed};
use crate::way::Way;
use crate::whole::seek;
use lin_report::Op;
use normal_traits::{Found, List, Stores};
use std::marker::Model;
use step_memory::{Request, Seen};

/// A search between two of its steps.
#[derive(Drop)]
pub struct Seeking {
    way: Way,
}

impl Model for Seeking {
    ghost use Rattle.harris_list_form.specs.declared.states.ListSearch.{ListSearch};

    ghost Value = { ListSearch };

    ghost use Rattle.harris_list.specs.Ways.{search_at};

    ghost view = { λ seeking. search_at seeking.way };
}

impl Seeking {
    /// A search that begins at the place where a list begins.
    pub fn begun_at(start: u32, op: Op) -> Seeking
        ensures { result ≡ begun_at start op }
    {
        Seeking {
            way: begun_at(start, op),
        }
    }

    /// Makes steps of a search that begins at the place where a list begins, in one piece. It goes on after it
    /// where it has passed 2^20 nodes.
    #[inline(always)]
    pub fn sought_from<C: ListSteps<P>, P>(start: u32, op: Op, port: &mut P) -> (Seeking, Found)
        requires begins { (C.machine port.old).phase ≡ Generate (begun_at start op) Search }
        ensures machine { C.machine port.new ≡ searched (list_form C.lists) result.1 result.0 (C.machine port.old) }
        ensures rest { C.rest port.new ≡ C.rest port.old }
        ensures goes { result.1 ≡ Found.Going → Asks result.0 }
        ensures readies { result.1 ≡ Found.Ready → IsReady result.0 }
    {
        let (way, found) = seek::<C, P>(start, op, port);
        (Seeking { way }, found)
    }

    /// What the search asks for.
    #[inline(always)]
    pub fn asked(&self) -> Request
        requires { Asks self.now }
        ensures { result ≡ asked self.now }
    {
        asked(&self.way)
    }

    /// Takes what the step saw, and says what was found.
    #[inline(always)]
    pub fn feed(&mut self, seen: Seen) -> Found
        requires { Asks self.old }
        ensures search { (self.new, result) ≡ fed self.old seen }
        ensures goes { result ≡ Found.Going → Asks self.new }
        ensures readies { result ≡ Found.Ready → IsReady self.new }
    {
        fed(&mut self.way, seen)
    }

    /// The list that the search names, where it is ready.
    pub fn list(&self, op: Op, block: u32) -> List
        requires ready { IsReady self.now }
        requires block { block < 2 ^ 17 }
        ensures list { result.items ≡ (offered self.now op block).entries }
        ensures some { 0 < length result.items }
    {
        list_of(&self.way, op, block)
    }

    /// Adds the stores that come before it.
    pub fn stores(&self, op: Op, block: u32, stores: &mut Stores)
        requires ready { IsReady self.now }
        requires block { block < 2 ^ 17 }
        requires room { length stores.old.items ≤ 10 }
        ensures stores { stores.new.items ≡ stores.old.items ++ (offered self.now op block).stores }
        ensures few { length stores.new.items ≤ length stores.old.items + 20 }
    {
        add_stores_of(&self.way, op, block, stores);
    }
}
