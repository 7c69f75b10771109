//! The calls of a map.
ghost use Rattle.std.specs.Prelude.{◌≡◌, Err};
ghost use Rattle.handles.specs.Opening.{before_calls};
ghost use Rattle.wait_free.specs.CallsLeave.{CanCall, IsAnswered, IsRefused, IsSpent};
ghost use Rattle.wait_free.specs.Answers.{change_answer, look_answer};
ghost use Rattle.wait_free.specs.Ops.{get_of, set_of, unset_of};
ghost use Rattle.wait_free.specs.declared.refused.Refused.{Refused};

use crate::answers::{change_answer, value_told};
use crate::key::Key;
use crate::refused::Refused;
use ellen_tree::EllenTree;
use handles::{Handle, Spent};
use lin_report::Op;
use lin_report::calls::{GET, REM, SET};
use shared_memory::Shared;
use std::sync::Wait;
use table_tries::Whole;

/// The memory of a shared map, Ellen's search tree.
pub type SharedMap = Shared<EllenTree>;

/// The right of one thread to make the calls of a map. Each takes no lock and no memory, and ends with the reply of its
/// own line. `thread_tests/src/handle_calls.rt` makes each of them.
#[derive(Drop)]
pub struct MapHandle {
    pub handle: Handle<EllenTree>,
}

impl MapHandle {
    /// Gives a key a value where it has none, and tells whether it did: a key that has a value keeps it. `Full`: the
    /// call needs a block, and none was left. `Spent`: the handle has made 65,535 calls.
    pub fn set<R: Wait>(
        &mut self,
        rt: &R,
        shared: &SharedMap,
        key: Key,
        value: u32,
    ) -> Result<bool, Refused>
        requires table { self.old.handle.table ≡ shared.now.table }
        ensures table { self.new.handle.table ≡ self.old.handle.table }
        ensures seat { before_calls self.new.handle.view ≡ before_calls self.old.handle.view }
        ensures called { CanCall self.old.handle.view → IsAnswered change_answer self.old.handle.view self.new.handle.view (set_of key value) result }
        ensures spent { IsSpent self.old.handle.view → IsRefused (Err Refused.Spent) self.old.handle.view self.new.handle.view result }
    {
        let op = Op {
            code: SET,
            key: key.get(),
            value,
        };
        let reply = self.handle.call::<Whole, R>(rt, shared, op)?;
        change_answer(reply)
    }

    /// Removes a key with its value, and tells whether it had one. `Full`: the call needs a block, and none was left.
    /// `Spent`: the handle has made 65,535 calls.
    pub fn remove<R: Wait>(&mut self, rt: &R, shared: &SharedMap, key: Key) -> Result<bool, Refused>
        requires table { self.old.handle.table ≡ shared.now.table }
        ensures table { self.new.handle.table ≡ self.old.handle.table }
        ensures seat { before_calls self.new.handle.view ≡ before_calls self.old.handle.view }
        ensures called { CanCall self.old.handle.view → IsAnswered change_answer self.old.handle.view self.new.handle.view (unset_of key) result }
        ensures spent { IsSpent self.old.handle.view → IsRefused (Err Refused.Spent) self.old.handle.view self.new.handle.view result }
    {
        let op = Op {
            code: REM,
            key: key.get(),
            value: 0,
        };
        let reply = self.handle.call::<Whole, R>(rt, shared, op)?;
        change_answer(reply)
    }

    /// Tells the value at a key, or that it has none. `Spent`: the handle has made 65,535 calls.
    pub fn get<R: Wait>(
        &mut self,
        rt: &R,
        shared: &SharedMap,
        key: Key,
    ) -> Result<Option<u32>, Spent>
        requires table { self.old.handle.table ≡ shared.now.table }
        ensures table { self.new.handle.table ≡ self.old.handle.table }
        ensures seat { before_calls self.new.handle.view ≡ before_calls self.old.handle.view }
        ensures called { CanCall self.old.handle.view → IsAnswered look_answer self.old.handle.view self.new.handle.view (get_of key) result }
        ensures spent { IsSpent self.old.handle.view → IsRefused (Err (record {})) self.old.handle.view self.new.handle.view result }
    {
        let op = Op {
            code: GET,
            key: key.get(),
            value: 0,
        };
        let reply = self.handle.call::<Whole, R>(rt, shared, op)?;
        Ok(value_told(reply))
    }
}
