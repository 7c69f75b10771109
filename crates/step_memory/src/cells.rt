//! Words that one owner holds.
ghost use Rattle.std.specs.Prelude.{◌≡◌, ℕ, List};

use crate::steps::{Port, Request, Seen};
use std::marker::Model;

/// A memory in one vector, for runs whose steps are made one after another.
#[derive(Drop)]
pub struct Cells {
    words: Vec<u64>,
}

impl Model for Cells {
    ghost Value = { List ℕ };

    ghost view = { λ c. c.words.items };
}

impl Cells {
    ghost use Rattle.step_memory.specs.Step.{words_after, seen_of};

    /// A memory of these words.
    pub fn new(words: Vec<u64>) -> Cells
        ensures { result ≡ words.items }
    {
        Cells { words }
    }

    /// The words as they are now.
    pub fn words(&self) -> &[u64]
        ensures { result.now ≡ self.now }
    {
        self.words.as_slice()
    }

    /// Makes one step.
    #[inline(always)]
    #[tactic(auto, unfolding(crate::specs::Step::words_after, crate::specs::Step::seen_of))]
    fn make(&mut self, request: Request) -> Seen
        ensures changes { self.new ≡ words_after request self.old }
        ensures tells { result ≡ seen_of request self.old }
    {
        let at = request.place() as usize;
        if at >= self.words.len() {
            return Seen {
                before: 0,
                won: false,
            };
        }
        let before = self.words[at];
        match request {
            Request::Load { .. } => {}
            Request::Store { value, .. } => self.words[at] = value,
            Request::Exchange { from, to, .. } => {
                if before == from {
                    self.words[at] = to;
                }
            }
            Request::Add { by, .. } => self.words[at] = before.wrapping_add(by),
        }
        request.tells(before)
    }
}

impl Port for Cells {
    ghost words = { λ c. c };

    /// Each kind of step is made by itself, so that it is short where the kind is known.
    #[inline(always)]
    fn apply(&mut self, request: Request) -> Seen {
        match request {
            Request::Load { at } => self.make(Request::Load { at }),
            Request::Store { at, value } => self.make(Request::Store { at, value }),
            Request::Exchange { at, from, to } => self.make(Request::Exchange { at, from, to }),
            Request::Add { at, by } => self.make(Request::Add { at, by }),
        }
    }
}

#[cfg(test)]
mod tests {
    use super::*;
    use std::test::Fail;

    fn exchange(at: u32, from: u64, to: u64) -> Request {
        Request::Exchange { at, from, to }
    }

    #[test]
    fn each_request_on_a_word_and_past_the_end(rt: HostRuntime) -> Result<(), Fail> {
        let mut cells = Cells::new([5, u64::MAX].to_vec(rt.alloc())?);
        for (request, before, won) in [
            (Request::Load { at: 0 }, 5, true),
            (exchange(0, 4, 6), 5, false),
            (exchange(0, 5, 6), 5, true),
            (Request::Store { at: 0, value: 7 }, 0, true),
            (Request::Add { at: 1, by: 2 }, u64::MAX, true),
            (Request::Load { at: 2 }, 0, false),
            (Request::Store { at: 2, value: 7 }, 0, false),
            (Request::Add { at: 2, by: 7 }, 0, false),
            (exchange(2, 0, 7), 0, false),
        ] {
            assert_eq!(rt; cells.apply(request), Seen { before, won });
        }
        assert_eq!(rt; cells.words(), [7, 1].as_slice());
        Ok(())
    }
}
