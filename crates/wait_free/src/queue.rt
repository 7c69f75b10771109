//! The calls of a queue.
ghost use Rattle.std.specs.Prelude.{◌≡◌, Err};
ghost use Rattle.handles.specs.Opening.{before_calls};
ghost use Rattle.wait_free.specs.CallsLeave.{CanCall, IsAnswered, IsRefused, IsSpent};
ghost use Rattle.wait_free.specs.Answers.{look_answer, put_answer, take_answer};
ghost use Rattle.wait_free.specs.Ops.{peek_of, put_of, take_of};
ghost use Rattle.wait_free.specs.declared.refused.Refused.{Refused};

use crate::answers::value_told;
use crate::refused::Refused;
use crate::values::{put_answer, take_answer};
use handles::{Handle, Spent};
use lin_report::Op;
use lin_report::calls::{PEEK, PUT, TAKE};
use ms_queue::MsQueue;
use shared_memory::Shared;
use std::sync::Wait;
use table_tries::Whole;

/// The memory of a shared queue, Michael and Scott's.
pub type SharedQueue = Shared<MsQueue>;

/// The right of one thread to make the calls of a queue. Each takes no lock and no memory, and ends with the reply of
/// its own line. `example_work_queue` is a program whose threads have one each.
#[derive(Drop)]
pub struct QueueHandle {
    pub handle: Handle<MsQueue>,
}

impl QueueHandle {
    /// Puts a value last in the queue. `Full`: a put needs a block, and none was left. `Spent`: the handle has made
    /// 65,535 calls.
    pub fn put<R: Wait>(&mut self, rt: &R, shared: &SharedQueue, value: u32) -> Result<(), Refused>
        requires table { self.old.handle.table ≡ shared.now.table }
        ensures table { self.new.handle.table ≡ self.old.handle.table }
        ensures seat { before_calls self.new.handle.view ≡ before_calls self.old.handle.view }
        ensures called { CanCall self.old.handle.view → IsAnswered put_answer self.old.handle.view self.new.handle.view (put_of value) result }
        ensures spent { IsSpent self.old.handle.view → IsRefused (Err Refused.Spent) self.old.handle.view self.new.handle.view result }
    {
        let op = Op {
            code: PUT,
            key: 0,
            value,
        };
        let reply = self.handle.call::<Whole, R>(rt, shared, op)?;
        put_answer(reply)
    }

    /// Takes the first value, or tells that there was none. `Full`: a take that failed too often is announced, which
    /// needs a block, and none was left. `Spent`: the handle has made 65,535 calls.
    pub fn take<R: Wait>(&mut self, rt: &R, shared: &SharedQueue) -> Result<Option<u32>, Refused>
        requires table { self.old.handle.table ≡ shared.now.table }
        ensures table { self.new.handle.table ≡ self.old.handle.table }
        ensures seat { before_calls self.new.handle.view ≡ before_calls self.old.handle.view }
        ensures called { CanCall self.old.handle.view → IsAnswered take_answer self.old.handle.view self.new.handle.view take_of result }
        ensures spent { IsSpent self.old.handle.view → IsRefused (Err Refused.Spent) self.old.handle.view self.new.handle.view result }
    {
        let op = Op {
            code: TAKE,
            key: 0,
            value: 0,
        };
        let reply = self.handle.call::<Whole, R>(rt, shared, op)?;
        take_answer(reply)
    }

    /// Tells the first value, which stays, or that there was none. `Spent`: the handle has made 65,535 calls.
    pub fn peek<R: Wait>(&mut self, rt: &R, shared: &SharedQueue) -> Result<Option<u32>, Spent>
        requires table { self.old.handle.table ≡ shared.now.table }
        ensures table { self.new.handle.table ≡ self.old.handle.table }
        ensures seat { before_calls self.new.handle.view ≡ before_calls self.old.handle.view }
        ensures called { CanCall self.old.handle.view → IsAnswered look_answer self.old.handle.view self.new.handle.view peek_of result }
        ensures spent { IsSpent self.old.handle.view → IsRefused (Err (record {})) self.old.handle.view self.new.handle.view result }
    {
        let op = Op {
            code: PEEK,
            key: 0,
            value: 0,
        };
        let reply = self.handle.call::<Whole, R>(rt, shared, op)?;
        Ok(value_told(reply))
    }
}
