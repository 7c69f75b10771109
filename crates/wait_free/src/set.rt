//! The calls of a sorted set.
ghost use Rattle.std.specs.Prelude.{◌≡◌, Err, Ok};
ghost use Rattle.handles.specs.Opening.{before_calls};
ghost use Rattle.wait_free.specs.CallsLeave.{CanCall, IsAnswered, IsRefused, IsSpent};
ghost use Rattle.wait_free.specs.Answers.{change_answer, contains_answer, least_answer};
ghost use Rattle.wait_free.specs.Ops.{add_of, contains_of, least_of, remove_of};
ghost use Rattle.wait_free.specs.declared.refused.Refused.{Refused};

use crate::answers::{change_answer, is_yes, value_told};
use crate::key::Key;
use crate::refused::Refused;
use handles::{Handle, Spent};
use harris_list::HarrisList;
use lin_report::calls::{ADD, DEL, HAS, MIN};
use lin_report::{Op, Reply};
use shared_memory::Shared;
use std::sync::Wait;
use table_tries::Whole;

/// The memory of a shared sorted set, Harris's list.
pub type SharedSet = Shared<HarrisList>;

/// The right of one thread to make the calls of a sorted set. Each takes no lock and no memory, and ends with the reply
/// of its own line. A call passes the keys below its own: for many keys take a `HashSetHandle`. `example_shared_set` is a
/// program whose threads have one each.
#[derive(Drop)]
pub struct SetHandle {
    pub handle: Handle<HarrisList>,
}

/// The key that a reply tells, if it tells one.
fn key_told(reply: Reply) -> Option<Key>
    ensures { Ok result ≡ least_answer reply }
{
    match value_told(reply) {
        Some(number) => Key::new(number),
        None => None,
    }
}

impl SetHandle {
    /// Adds a key, and tells whether it was absent. `Full`: an add needs a block, and none was left. `Spent`: the
    /// handle has made 65,535 calls.
    pub fn add<R: Wait>(&mut self, rt: &R, shared: &SharedSet, key: Key) -> Result<bool, Refused>
        requires table { self.old.handle.table ≡ shared.now.table }
        ensures table { self.new.handle.table ≡ self.old.handle.table }
        ensures seat { before_calls self.new.handle.view ≡ before_calls self.old.handle.view }
        ensures called { CanCall self.old.handle.view → IsAnswered change_answer self.old.handle.view self.new.handle.view (add_of key) result }
        ensures spent { IsSpent self.old.handle.view → IsRefused (Err Refused.Spent) self.old.handle.view self.new.handle.view result }
    {
        let op = Op {
            code: ADD,
            key: key.get(),
            value: 0,
        };
        let reply = self.handle.call::<Whole, R>(rt, shared, op)?;
        change_answer(reply)
    }

    /// Removes a key, and tells whether it was present. `Full`: a removal that failed too often is announced, which
    /// needs a block, and none was left. `Spent`: the handle has made 65,535 calls.
    pub fn remove<R: Wait>(&mut self, rt: &R, shared: &SharedSet, key: Key) -> Result<bool, Refused>
        requires table { self.old.handle.table ≡ shared.now.table }
        ensures table { self.new.handle.table ≡ self.old.handle.table }
        ensures seat { before_calls self.new.handle.view ≡ before_calls self.old.handle.view }
        ensures called { CanCall self.old.handle.view → IsAnswered change_answer self.old.handle.view self.new.handle.view (remove_of key) result }
        ensures spent { IsSpent self.old.handle.view → IsRefused (Err Refused.Spent) self.old.handle.view self.new.handle.view result }
    {
        let op = Op {
            code: DEL,
            key: key.get(),
            value: 0,
        };
        let reply = self.handle.call::<Whole, R>(rt, shared, op)?;
        change_answer(reply)
    }

    /// Tells whether a key is in the set. `Spent`: the handle has made 65,535 calls.
    pub fn contains<R: Wait>(&mut self, rt: &R, shared: &SharedSet, key: Key) -> Result<bool, Spent>
        requires table { self.old.handle.table ≡ shared.now.table }
        ensures table { self.new.handle.table ≡ self.old.handle.table }
        ensures seat { before_calls self.new.handle.view ≡ before_calls self.old.handle.view }
        ensures called { CanCall self.old.handle.view → IsAnswered contains_answer self.old.handle.view self.new.handle.view (contains_of key) result }
        ensures spent { IsSpent self.old.handle.view → IsRefused (Err (record {})) self.old.handle.view self.new.handle.view result }
    {
        let op = Op {
            code: HAS,
            key: key.get(),
            value: 0,
        };
        let reply = self.handle.call::<Whole, R>(rt, shared, op)?;
        Ok(is_yes(reply))
    }

    /// Tells the least key of the set, which stays, or that there was none. `Spent`: the handle has made 65,535 calls.
    pub fn least<R: Wait>(&mut self, rt: &R, shared: &SharedSet) -> Result<Option<Key>, Spent>
        requires table { self.old.handle.table ≡ shared.now.table }
        ensures table { self.new.handle.table ≡ self.old.handle.table }
        ensures seat { before_calls self.new.handle.view ≡ before_calls self.old.handle.view }
        ensures called { CanCall self.old.handle.view → IsAnswered least_answer self.old.handle.view self.new.handle.view least_of result }
        ensures spent { IsSpent self.old.handle.view → IsRefused (Err (record {})) self.old.handle.view self.new.handle.view result }
    {
        let op = Op {
            code: MIN,
            key: 0,
            value: 0,
        };
        let reply = self.handle.call::<Whole, R>(rt, shared, op)?;
        Ok(key_told(reply))
    }
}
