//! One offered block, its helpers, and changes of its targets by others.
ghost use Rattle.std.specs.Prelude.{◌≡◌, ℕ, ◌-◌, ◌<◌, ◌^◌, ◌↔◌, IsTrue, [], ◌∷◌, List, slice_index, slice_set};
ghost use Rattle.word_fields.specs.Versioned.{changed_word, versioned_bit, versioned_version};
ghost use Rattle.normal_traits.specs.declared.lists.Entry.{Entry};
ghost use Rattle.cas_executor_laws.specs.ExecRuns.{Act, CanChange, CanOpen, CanStep, ExecSetup, IsEntry, IsWorldOf, acted, execution_of, opening_world};
ghost use Rattle.cas_executor_laws.specs.ExecRuns.Act.{Changes, Steps};

use crate::helpers::Helper;
use arrayvec::ArrayVec;
use cas_executor::Execution;
use normal_traits::List;
use std::marker::Model;
use step_memory::{Cells, Port, Request};
use word_fields::VersionedWord;

/// One offered block that any helpers execute, step by step, in any order. Others change its targets at any
/// moment.
#[derive(Drop)]
pub struct ExecWorld {
    list: List,
    cells: Cells,
    helpers: ArrayVec<Helper, 8>,
}

impl Model for ExecWorld {
    ghost use Rattle.cas_executor_laws.specs.ExecRuns.{ExecState};

    ghost Value = { ExecState };

    ghost view = { λ w. record { entries = w.list.items; words = w.cells; helpers = w.helpers.items } };
}

impl ExecWorld {
    /// The world of these words, where each helper is at the first step of the block's list.
    pub fn new(helpers: u32, block: u32, list: List, words: Vec<u64>) -> ExecWorld
        requires { CanOpen (record { helpers = helpers; block = block; entries = list.items; words = words.items }) }
        ensures state { result ≡ opening_world (record { helpers = helpers; block = block; entries = list.items; words = words.items }) }
        ensures world { IsWorldOf (record { helpers = helpers; block = block; entries = list.items; words = words.items }) [] result }
    {
        let mut seated = ArrayVec::new();
        for _ in 0..helpers {
            seated.push(Helper::new(block, copy_of(&list)));
        }
        ExecWorld {
            list,
            cells: Cells::new(words),
            helpers: seated,
        }
    }

    /// Whether a helper can make a step: it is one of the world's, and hasn't stopped.
    pub fn can_step(&self, helper: u32) -> bool
        ensures { IsTrue result ↔ CanStep self.now helper }
    {
        match self.helpers.get(helper as usize) {
            Some(helper) => helper.is_running(),
            None => false,
        }
    }

    /// Makes one step of a helper that hasn't stopped.
    pub fn step(&mut self, helper: u32) -> Execution
        requires { CanStep self.old helper }
        ensures state { self.new ≡ acted (Steps helper) self.old }
        ensures execution { result ≡ execution_of helper self.old }
        ensures world { (setup : ExecSetup) (acts : List Act) → IsWorldOf setup acts self.old → IsWorldOf setup (Steps helper ∷ acts) self.new }
    {
        self.helpers[helper as usize].step(&mut self.cells)
    }

    /// Whether anyone else can change the word at a place to a value: it is a target, its bit is clear, and its
    /// version is below the last two.
    pub fn can_change(&self, at: u32, value: u32) -> bool
        ensures { IsTrue result ↔ CanChange self.now at value }
    {
        is_target(&self.list, at) && is_open(word_at(self.cells.words(), at)) && value < VALUES
    }

    /// Changes a target as anyone else may: the word becomes itself changed to a value.
    pub fn foreign(&mut self, at: u32, value: u32)
        requires { CanChange self.old at value }
        ensures state { self.new ≡ acted (Changes at value) self.old }
        ensures world { (setup : ExecSetup) (acts : List Act) → IsWorldOf setup acts self.old → IsWorldOf setup (Changes at value ∷ acts) self.new }
    {
        change(&mut self.cells, at, value);
    }

    /// The words of the memory.
    pub fn words(&self) -> &[u64]
        ensures { result.now ≡ self.now.words }
    {
        self.cells.words()
    }
}

/// How many values a versioned word has.
const VALUES: u32 = 1 << 24;
/// The version that no changed word of a world is above.
const LAST: u64 = (1 << 39) - 2;

/// Whether a place is the target of an entry.
fn is_target(list: &List, at: u32) -> bool
    ensures { IsTrue result ↔ ((j : ℕ) × (entry : Entry) × IsEntry list.now.items j entry × (entry.target ≡ at)) }
{
    for entry in list.as_slice() {
        if entry.target == at {
            return true;
        }
    }
    false
}

/// The word at a place, 0 past the end.
fn word_at(words: &[u64], at: u32) -> u64
    ensures { result ≡ slice_index words.now at }
{
    match words.get(at as usize) {
        Some(word) => *word,
        None => 0,
    }
}

/// Whether a word has its bit clear and a version below the last two.
fn is_open(word: u64) -> bool
    ensures { IsTrue result ↔ ((versioned_bit word ≡ 0) × (versioned_version word < 2 ^ 39 - 2)) }
{
    let fields = VersionedWord::unpack(word);
    !fields.modified && fields.version < LAST
}

/// Changes a word to a value, as a changing exchange does.
fn change(cells: &mut Cells, at: u32, value: u32)
    requires { value < 2 ^ 24 }
    ensures { cells.new ≡ slice_set cells.old at (changed_word (slice_index cells.old at) value) }
{
    let word = cells.apply(Request::Load { at }).before;
    let changed = VersionedWord::unpack(word).changed(value).pack();
    cells.apply(Request::Store { at, value: changed });
}

/// Another list of the same entries.
fn copy_of(list: &List) -> List
    ensures { result.items ≡ list.now.items }
{
    match List::try_from(list.as_slice()) {
        Ok(copy) => copy,
        Err(_) => unreachable!(),
    }
}
