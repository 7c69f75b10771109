//! The sequential map from keys to values.
ghost use Rattle.std.specs.Prelude.{◌≡◌, ℕ, not, IfOk, OnOk, OnErr};
ghost use Rattle.std.specs.Ordering.{nat_cmp};
ghost use Rattle.std.specs.FinMap as map;
ghost use Rattle.std.specs.Coded.{coded_ℕ};

use crate::calls::{Op, REM, Reply, SET};
use crate::objects::{NoMemory, Sequential, yes_if};
use std::alloc::Global;
use std::collections::BTreeMap;
use std::marker::Model;

/// A map that answers one operation at a time, as the definition of the sequential map does. Each
/// operation takes a number of steps that grows with the logarithm of the number of keys.
#[derive(Drop)]
pub struct MapObject {
    pairs: BTreeMap<u32, u32>,
}

impl Model for MapObject {
    ghost Value = { map.FinMap nat_cmp ℕ };

    ghost coded = { map.code coded_ℕ coded_ℕ };

    ghost view = { λ m. map.from_entries m.pairs.entries };
}

impl MapObject {
    ghost use Rattle.lin_report.specs.Object.{set_absent, value_or_absent};

    /// The empty map. It takes no memory yet.
    pub fn new(alloc: Global) -> Self
        ensures { result ≡ map.empty }
    {
        MapObject {
            pairs: BTreeMap::new(alloc),
        }
    }

    /// Gives the key its value where it has none.
    fn set(&mut self, key: u32, value: u32) -> Result<bool, NoMemory>
        ensures was_absent { IfOk result (λ added. added ≡ not (map.contains_key self.old key)) }
        ensures ok { OnOk result (self.new ≡ (set_absent key value self.old).0) }
        ensures err { OnErr result (self.new ≡ self.old) }
    {
        if self.pairs.contains_key(&key) {
            return Ok(false);
        }
        self.pairs.insert(key, value)?;
        Ok(true)
    }

    fn remove(&mut self, key: u32) -> bool
        ensures was_present { result ≡ map.contains_key self.old key }
        ensures removed { self.new ≡ map.remove self.old key }
    {
        self.pairs.remove(&key).is_some()
    }

    fn get(&self, key: u32) -> Reply
        ensures { result ≡ value_or_absent (map.get self.now key) }
    {
        match self.pairs.get(&key) {
            Some(value) => Reply::Value(*value),
            None => Reply::Absent,
        }
    }
}

impl Sequential for MapObject {
    ghost use Rattle.lin_report.specs.Object.{map_object};

    ghost object = { map_object };

    ghost held = { λ m. m };

    fn apply(&mut self, op: Op) -> Result<Reply, NoMemory> {
        match op.code {
            SET => Ok(yes_if(self.set(op.key, op.value)?)),
            REM => Ok(yes_if(self.remove(op.key))),
            _ => Ok(self.get(op.key)),
        }
    }
}
