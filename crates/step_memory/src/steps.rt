//! One atomic step: what may be asked of one word, and what the step tells.
ghost use Rattle.std.specs.Prelude.{◌≡◌, ℕ, List};

/// One step on the word at a place. Places count from 0.
#[derive(Clone, Copy, Debug, PartialEq, Eq)]
pub enum Request {
    /// Reads the word.
    Load { at: u32 },
    /// Writes the word.
    Store { at: u32, value: u64 },
    /// Writes `to` where the word is `from`, else leaves it.
    Exchange { at: u32, from: u64, to: u64 },
    /// Adds to the word, modulo 2^64.
    Add { at: u32, by: u64 },
}

/// What a step tells. `before` is the word before the step, but 0 for a store, which tells nothing of
/// the old word. `won` is true for each load, store and addition, and for an exchange that found
/// `from`. A step at a place past the last word changes nothing and tells 0 and false.
#[derive(Clone, Copy, Debug, PartialEq, Eq)]
pub struct Seen {
    pub before: u64,
    pub won: bool,
}

impl Request {
    ghost use Rattle.step_memory.specs.Step.{requested_place, seen_at};

    /// The place of the word that the request is on.
    pub fn place(self) -> u32
        ensures { result ≡ requested_place self }
    {
        match self {
            Request::Load { at } => at,
            Request::Store { at, .. } => at,
            Request::Exchange { at, .. } => at,
            Request::Add { at, .. } => at,
        }
    }

    /// What the request tells where it finds this word.
    pub fn tells(self, word: u64) -> Seen
        ensures { result ≡ seen_at self word }
    {
        match self {
            Request::Load { .. } | Request::Add { .. } => Seen {
                before: word,
                won: true,
            },
            Request::Store { .. } => Seen {
                before: 0,
                won: true,
            },
            Request::Exchange { from, .. } => Seen {
                before: word,
                won: word == from,
            },
        }
    }
}

/// What steps are made on.
pub trait Port {
    ghost use Rattle.step_memory.specs.Step.{words_after, seen_of};

    /// The words of the memory.
    ghost words: { Self → List ℕ };

    /// Makes one atomic step.
    fn apply(&mut self, request: Request) -> Seen
        ensures changes { words self.new ≡ words_after request (words self.old) }
        ensures tells { result ≡ seen_of request (words self.old) };
}
