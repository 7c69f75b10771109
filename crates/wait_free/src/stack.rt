//! The calls of a stack.
ghost use Rattle.std.specs.Prelude.{◌≡◌, Err};
ghost use Rattle.handles.specs.Opening.{before_calls};
ghost use Rattle.wait_free.specs.CallsLeave.{CanCall, IsAnswered, IsRefused, IsSpent};
ghost use Rattle.wait_free.specs.Answers.{put_answer, take_answer};
ghost use Rattle.wait_free.specs.Ops.{put_of, take_of};
ghost use Rattle.wait_free.specs.declared.refused.Refused.{Refused};

use crate::refused::Refused;
use crate::values::{put_answer, take_answer};
use handles::Handle;
use lin_report::Op;
use lin_report::calls::{PUT, TAKE};
use shared_memory::Shared;
use std::sync::Wait;
use thread_runs::Stepwise;
use treiber_stack::TreiberStack;

/// The memory of a shared stack, Treiber's.
pub type SharedStack = Shared<TreiberStack>;

/// The right of one thread to make the calls of a stack. Each takes no lock and no memory, and ends with the reply of
/// its own line. `thread_tests/src/handle_calls.rt` makes each of them.
#[derive(Drop)]
pub struct StackHandle {
    pub handle: Handle<TreiberStack>,
}

impl StackHandle {
    /// Puts a value on top of the stack. `Full`: a put needs a block, and none was left. `Spent`: the handle has made
    /// 65,535 calls.
    pub fn put<R: Wait>(&mut self, rt: &R, shared: &SharedStack, value: u32) -> Result<(), Refused>
        requires table { self.old.handle.table ≡ shared.now.table }
        ensures table { self.new.handle.table ≡ self.old.handle.table }
        ensures seat { before_calls self.new.handle.view ≡ before_calls self.old.handle.view }
        ensures called { CanCall self.old.handle.view → IsAnswered put_answer self.old.handle.view self.new.handle.view (put_of value) result }
        ensures spent { IsSpent self.old.handle.view → IsRefused (Err Refused.Spent) self.old.handle.view self.new.handle.view result }
    {
        let op = Op {
            code: PUT,
            key: 0,
            value,
        };
        let reply = self.handle.call::<Stepwise, R>(rt, shared, op)?;
        put_answer(reply)
    }

    /// Takes the value on top, or tells that there was none. `Full`: a take that failed too often is announced, which
    /// needs a block, and none was left. `Spent`: the handle has made 65,535 calls.
    pub fn take<R: Wait>(&mut self, rt: &R, shared: &SharedStack) -> Result<Option<u32>, Refused>
        requires table { self.old.handle.table ≡ shared.now.table }
        ensures table { self.new.handle.table ≡ self.old.handle.table }
        ensures seat { before_calls self.new.handle.view ≡ before_calls self.old.handle.view }
        ensures called { CanCall self.old.handle.view → IsAnswered take_answer self.old.handle.view self.new.handle.view take_of result }
        ensures spent { IsSpent self.old.handle.view → IsRefused (Err Refused.Spent) self.old.handle.view self.new.handle.view result }
    {
        let op = Op {
            code: TAKE,
            key: 0,
            value: 0,
        };
        let reply = self.handle.call::<Stepwise, R>(rt, shared, op)?;
        take_answer(reply)
    }
}
