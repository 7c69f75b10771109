//! Reading a block that was offered.
ghost use Rattle.std.specs.Prelude.{◌≡◌, ℕ, ◌<◌, ◌^◌, ◌↔◌};
ghost use Rattle.cas_executor.specs.BlockReads.{ReadWalk, IsReading, given_at, IsLast, read_at, read_fed, read_field, read_new, read_request, read_result};

use node_arena::block_place;
use node_arena::places::{ENTRY_FIELD, ENTRY_FIELDS, LENGTH_FIELD, OP_FIELD, VALUE_FIELD};
use normal_traits::{Entry, List};
use std::marker::Model;
use step_memory::{Request, Seen};

/// How many places a target can name.
const PLACES: u64 = 1 << 32;

/// The word of a block that is loaded next.
#[derive(Clone, Copy, Debug, PartialEq, Eq)]
pub enum ReadStep {
    /// The op word of its call.
    Op,
    /// The value word of its call.
    Value,
    /// The length of its list.
    Length,
    /// An entry's target.
    Target,
    /// The word from which the entry exchanges.
    From,
    /// The word to which it does.
    To,
}

/// A block that is read word by word: op word, value word and list.
#[derive(Debug, Drop)]
pub struct BlockRead {
    block: u32,
    op: u64,
    value: u64,
    count: u32,
    list: List,
    target: u32,
    from: u64,
    step: ReadStep,
}

impl Model for BlockRead {
    ghost Value = { ReadWalk };

    ghost view = { λ r. record { block = r.block; op = r.op; value = r.value; count = r.count; entries = r.list.items; target = r.target; from = r.from; step = r.step } };
}

impl BlockRead {
    /// The read of a block that loaded nothing yet.
    pub fn new(block: u32) -> BlockRead
        requires { block < 2 ^ 17 }
        ensures read { result ≡ read_new block }
        ensures reading { IsReading result }
    {
        BlockRead {
            block,
            op: 0,
            value: 0,
            count: 1,
            list: List::new(),
            target: 0,
            from: 0,
            step: ReadStep::Op,
        }
    }

    /// The load of the next word.
    #[inline(always)]
    pub fn request(&self) -> Request
        requires { IsReading self.now }
        ensures { result ≡ read_request self.now }
    {
        let read = ENTRY_FIELDS * self.list.len() as u32;
        Request::Load {
            at: block_place(self.block, self.first_field() + read),
        }
    }

    /// The field that is loaded next, were no entry read.
    #[inline(always)]
    fn first_field(&self) -> u32
        ensures { result ≡ read_field self.now.step 0 }
    {
        match self.step {
            ReadStep::Op => OP_FIELD,
            ReadStep::Value => VALUE_FIELD,
            ReadStep::Length => LENGTH_FIELD,
            ReadStep::Target => ENTRY_FIELD,
            ReadStep::From => ENTRY_FIELD + 1,
            ReadStep::To => ENTRY_FIELD + 2,
        }
    }

    /// Takes a loaded word, also one that no run would show: a length other than 1 and 2 is read as 1, and a
    /// target modulo 2^32. Gives op word, value word and list at the last word, and `None` exactly where words
    /// are still to be loaded.
    #[inline(always)]
    pub fn feed(&mut self, seen: Seen) -> Option<(u64, u64, List)>
        requires { IsReading self.old }
        ensures given { result ≡ read_result self.old seen }
        ensures read { result ≡ None → self.new ≡ read_fed self.old seen }
        ensures reading { result ≡ None → IsReading self.new }
        ensures last { result ≡ None ↔ (IsLast self.old → ⊥) }
    {
        let word = seen.before;
        match self.step {
            ReadStep::Op => {
                self.op = word;
                self.go_on(ReadStep::Value)
            }
            ReadStep::Value => {
                self.value = word;
                self.go_on(ReadStep::Length)
            }
            ReadStep::Length => {
                self.count = if word == 2 { 2 } else { 1 };
                self.go_on(ReadStep::Target)
            }
            ReadStep::Target => {
                self.target = (word % PLACES) as u32;
                self.go_on(ReadStep::From)
            }
            ReadStep::From => {
                self.from = word;
                self.go_on(ReadStep::To)
            }
            ReadStep::To => self.end_entry(word),
        }
    }

    /// Goes on with another word.
    fn go_on(&mut self, step: ReadStep) -> Option<(u64, u64, List)>
        ensures given { result ≡ None }
        ensures read { self.new ≡ record self.old { step = step } }
    {
        self.step = step;
        None
    }

    /// An entry's last word was loaded. It stands for itself, so that no other step makes room for a list.
    #[inline(never)]
    fn end_entry(&mut self, to: u64) -> Option<(u64, u64, List)>
        requires reading { IsReading self.old }
        requires at_end { self.old.step ≡ ReadStep.To }
        ensures given { result ≡ given_at ReadStep.To self.old to }
        ensures read { result ≡ None → self.new ≡ read_at ReadStep.To self.old to }
        ensures reading { result ≡ None → IsReading self.new }
    {
        self.list.push(Entry {
            target: self.target,
            from: self.from,
            to,
        });
        self.step = ReadStep::Target;
        if self.list.len() < self.count as usize {
            return None;
        }
        Some((self.op, self.value, self.list.take()))
    }
}
