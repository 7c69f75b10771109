//! The calls of a hash set.
ghost use Rattle.std.specs.Prelude.{◌≡◌, Err};
ghost use Rattle.handles.specs.Opening.{before_calls};
ghost use Rattle.wait_free.specs.CallsLeave.{CanCall, IsAnswered, IsRefused, IsSpent};
ghost use Rattle.wait_free.specs.Answers.{change_answer, contains_answer};
ghost use Rattle.wait_free.specs.Ops.{add_of, contains_of, remove_of};
ghost use Rattle.wait_free.specs.declared.refused.Refused.{Refused};

use crate::answers::{change_answer, is_yes};
use crate::key::Key;
use crate::refused::Refused;
use bucket_set::BucketSet;
use handles::{Handle, Spent};
use lin_report::Op;
use lin_report::calls::{ADD, DEL, HAS};
use shared_memory::Shared;
use std::sync::Wait;
use table_tries::Whole;

/// A set whose keys are spread over 32 sorted lists by their remainders.
pub type Buckets = BucketSet<32>;

/// The memory of a shared hash set.
pub type SharedHashSet = Shared<Buckets>;

/// The right of one thread to make the calls of a hash set. Each takes no lock and no memory, and ends with the reply of
/// its own line. `thread_tests/src/handle_calls.rt` makes each of them.
#[derive(Drop)]
pub struct HashSetHandle {
    pub handle: Handle<Buckets>,
}

impl HashSetHandle {
    /// Adds a key, and tells whether it was absent. `Full`: an add needs a block, and none was left. `Spent`: the
    /// handle has made 65,535 calls.
    pub fn add<R: Wait>(
        &mut self,
        rt: &R,
        shared: &SharedHashSet,
        key: Key,
    ) -> Result<bool, Refused>
        requires table { self.old.handle.table ≡ shared.now.table }
        ensures table { self.new.handle.table ≡ self.old.handle.table }
        ensures seat { before_calls self.new.handle.view ≡ before_calls self.old.handle.view }
        ensures called { CanCall self.old.handle.view → IsAnswered change_answer self.old.handle.view self.new.handle.view (add_of key) result }
        ensures spent { IsSpent self.old.handle.view → IsRefused (Err Refused.Spent) self.old.handle.view self.new.handle.view result }
    {
        let op = Op {
            code: ADD,
            key: key.get(),
            value: 0,
        };
        let reply = self.handle.call::<Whole, R>(rt, shared, op)?;
        change_answer(reply)
    }

    /// Removes a key, and tells whether it was present. `Full`: a removal that failed too often is announced, which
    /// needs a block, and none was left. `Spent`: the handle has made 65,535 calls.
    pub fn remove<R: Wait>(
        &mut self,
        rt: &R,
        shared: &SharedHashSet,
        key: Key,
    ) -> Result<bool, Refused>
        requires table { self.old.handle.table ≡ shared.now.table }
        ensures table { self.new.handle.table ≡ self.old.handle.table }
        ensures seat { before_calls self.new.handle.view ≡ before_calls self.old.handle.view }
        ensures called { CanCall self.old.handle.view → IsAnswered change_answer self.old.handle.view self.new.handle.view (remove_of key) result }
        ensures spent { IsSpent self.old.handle.view → IsRefused (Err Refused.Spent) self.old.handle.view self.new.handle.view result }
    {
        let op = Op {
            code: DEL,
            key: key.get(),
            value: 0,
        };
        let reply = self.handle.call::<Whole, R>(rt, shared, op)?;
        change_answer(reply)
    }

    /// Tells whether a key is in the set. `Spent`: the handle has made 65,535 calls.
    pub fn contains<R: Wait>(
        &mut self,
        rt: &R,
        shared: &SharedHashSet,
        key: Key,
    ) -> Result<bool, Spent>
        requires table { self.old.handle.table ≡ shared.now.table }
        ensures table { self.new.handle.table ≡ self.old.handle.table }
        ensures seat { before_calls self.new.handle.view ≡ before_calls self.old.handle.view }
        ensures called { CanCall self.old.handle.view → IsAnswered contains_answer self.old.handle.view self.new.handle.view (contains_of key) result }
        ensures spent { IsSpent self.old.handle.view → IsRefused (Err (record {})) self.old.handle.view self.new.handle.view result }
    {
        let op = Op {
            code: HAS,
            key: key.get(),
            value: 0,
        };
        let reply = self.handle.call::<Whole, R>(rt, shared, op)?;
        Ok(is_yes(reply))
    }
}
