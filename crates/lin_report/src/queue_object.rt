//! The sequential queue.
ghost use Rattle.std.specs.Prelude.{◌≡◌, ℕ, List, [], slice_get};

use crate::calls::{Op, PUT, Reply, TAKE};
use crate::objects::{NoMemory, Sequential, value_or_empty};
use std::alloc::Global;
use std::collections::VecDeque;
use std::marker::Model;

/// A queue that answers one operation at a time, as the definition of the sequential queue does.
#[derive(Drop)]
pub struct FifoObject {
    values: VecDeque<u32>,
}

impl Model for FifoObject {
    ghost Value = { List ℕ };

    ghost view = { λ q. q.values.items };
}

impl FifoObject {
    /// The empty queue. It takes no memory yet.
    pub fn new(alloc: Global) -> Self
        ensures { result ≡ [] }
    {
        FifoObject {
            values: VecDeque::new(alloc),
        }
    }

    fn first(&self) -> Option<u32>
        ensures { result ≡ slice_get self.now 0 }
    {
        match self.values.front() {
            Some(value) => Some(*value),
            None => None,
        }
    }
}

impl Sequential for FifoObject {
    ghost use Rattle.lin_report.specs.Object.{queue_object};

    ghost object = { queue_object };

    ghost held = { λ q. q };

    fn apply(&mut self, op: Op) -> Result<Reply, NoMemory> {
        if op.code == PUT {
            self.values.push_back(op.value)?;
            return Ok(Reply::Done);
        }
        if op.code == TAKE {
            return Ok(value_or_empty(self.values.pop_front()));
        }
        Ok(value_or_empty(self.first()))
    }
}
