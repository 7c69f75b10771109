//! The memory of a run, which remembers of its last step what events can be read off.
ghost use Rattle.std.specs.Prelude.{◌≡◌, ℕ, ◌+◌, ◌<◌, ◌≤◌, if◌then◌else◌, length, nat_le, slice_index, Some, None};
ghost use Rattle.node_arena.specs.declared.places.TheConstants.{RECORDS};

use crate::noting::{is_beyond, word_at};
use crate::resets::rewrite;
use fast_slow_engine::Plays;
use std::marker::Model;
use step_memory::{Cells, Port, Request, Seen};

/// A step that may tell an event: its place, and the word that it found there.
#[derive(Clone, Copy, Debug, PartialEq, Eq)]
pub struct Mark {
    pub place: u32,
    pub before: u64,
}

/// Words with a mark of the last step, if that may tell an event.
#[derive(Drop)]
pub struct Watched {
    cells: Cells,
    mark: Option<Mark>,
}

impl Model for Watched {
    ghost use Rattle.event_core.specs.Watching.{WatchedView};

    ghost Value = { WatchedView };

    ghost view = { λ w. record { words = w.cells; mark = w.mark } };
}

impl Watched {
    /// The memory of these words, on which no step was made.
    pub fn new(words: Vec<u64>) -> Watched
        ensures { result ≡ record { words = words.items; mark = None } }
    {
        Watched {
            cells: Cells::new(words),
            mark: None,
        }
    }

    /// The words as they are now.
    pub fn words(&self) -> &[u64]
        ensures { result.now ≡ self.now.words }
    {
        self.cells.words()
    }

    /// Gives each place the word that these have there, and 0 past the last of them, as where no step was made.
    pub fn rewrite(&mut self, words: &[u64])
        requires count { length self.old.words ≤ 4294967295 }
        ensures count { length self.new.words ≡ length self.old.words }
        ensures each { (place : ℕ) → place < length self.new.words → slice_index self.new.words place ≡ slice_index words.now place }
    {
        rewrite(&mut self.cells, words);
        self.mark = None;
    }

    /// The mark of a step at this place that changes its word.
    #[inline(always)]
    fn mark_of(&self, place: u32) -> Option<Mark>
        ensures { result ≡ (if nat_le (RECORDS + 8) place then None else Some (record { place = place; before = slice_index self.now.words place })) }
    {
        if is_beyond(place) {
            return None;
        }
        let before = word_at(self.cells.words(), place);
        Some(Mark { place, before })
    }

    /// The mark of the last step.
    pub fn mark(&self) -> Option<Mark>
        ensures { result ≡ self.now.mark }
    {
        self.mark
    }
}

impl Plays for Watched {
    ghost use Rattle.event_core.specs.Watching.{IsPlayed};

    ghost can = { λ watched request. Unit {0} };

    ghost makes = { IsPlayed };

    /// Each kind of step is made by itself, so that it is short where the kind is known.
    #[inline(always)]
    fn play(&mut self, request: Request) -> Seen {
        match request {
            Request::Load { at } => {
                self.mark = None;
                self.cells.apply(Request::Load { at })
            }
            Request::Store { at, value } => {
                self.mark = self.mark_of(at);
                self.cells.apply(Request::Store { at, value })
            }
            Request::Exchange { at, from, to } => {
                self.mark = self.mark_of(at);
                self.cells.apply(Request::Exchange { at, from, to })
            }
            Request::Add { at, by } => {
                self.mark = self.mark_of(at);
                self.cells.apply(Request::Add { at, by })
            }
        }
    }
}
