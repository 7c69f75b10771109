//! The sequential set of keys.
ghost use Rattle.std.specs.Prelude.{◌≡◌, not, IfOk, OnOk, OnErr};
ghost use Rattle.std.specs.Ordering.{nat_cmp};
ghost use Rattle.std.specs.FinSet as set;
ghost use Rattle.std.specs.Coded.{coded_ℕ};
ghost use Rattle.lin_report.specs.Object.{least};

use crate::calls::{ADD, DEL, HAS, Op, Reply};
use crate::objects::{NoMemory, Sequential, value_or_empty, yes_if};
use std::alloc::Global;
use std::collections::BTreeSet;
use std::marker::Model;

/// A set that answers one operation at a time, as the definition of the sequential set with its least key does. Each
/// operation takes a number of steps that grows with the logarithm of the number of keys.
#[derive(Drop)]
pub struct SetObject {
    keys: BTreeSet<u32>,
}

impl Model for SetObject {
    ghost Value = { set.FinSet nat_cmp };

    ghost coded = { set.code coded_ℕ };

    ghost view = { λ s. set.from_list s.keys.keys };
}

impl SetObject {
    /// The empty set. It takes no memory yet.
    pub fn new(alloc: Global) -> Self
        ensures { result ≡ set.empty }
    {
        SetObject {
            keys: BTreeSet::new(alloc),
        }
    }

    fn contains(&self, key: u32) -> bool
        ensures { result ≡ set.contains self.now key }
    {
        self.keys.contains(&key)
    }

    fn insert(&mut self, key: u32) -> Result<bool, NoMemory>
        ensures was_absent { IfOk result (λ added. added ≡ not (set.contains self.old key)) }
        ensures ok { OnOk result (self.new ≡ set.insert self.old key) }
        ensures err { OnErr result (self.new ≡ self.old) }
    {
        Ok(self.keys.insert(key)?)
    }

    fn remove(&mut self, key: u32) -> bool
        ensures was_present { result ≡ set.contains self.old key }
        ensures removed { self.new ≡ set.remove self.old key }
    {
        self.keys.remove(&key)
    }

    fn least(&self) -> Option<u32>
        ensures { result ≡ least (set.items self.now) }
    {
        match self.keys.first() {
            Some(key) => Some(*key),
            None => None,
        }
    }
}

impl Sequential for SetObject {
    ghost use Rattle.lin_report.specs.Object.{list_object};

    ghost object = { list_object };

    ghost held = { λ s. s };

    fn apply(&mut self, op: Op) -> Result<Reply, NoMemory> {
        match op.code {
            ADD => Ok(yes_if(self.insert(op.key)?)),
            DEL => Ok(yes_if(self.remove(op.key))),
            HAS => Ok(yes_if(self.contains(op.key))),
            _ => Ok(value_or_empty(self.least())),
        }
    }
}
