//! Machines over one memory, and steps of them by hand.
use crate::rows::Row;
use fast_slow_engine::{Machine, Setup, Turn};
use lin_report::{Op, Path, Receipt};
use normal_traits::Normalized;
use std::alloc::Global;
use step_memory::{Cells, Port, Request, Seen};

/// How many steps a call is given to come to something.
const PATIENCE: u32 = 1000;

/// A step that a machine made.
#[derive(Clone, Copy, Debug, PartialEq, Eq)]
pub struct Made {
    pub request: Request,
    pub seen: Seen,
    pub turn: Turn,
}

/// A memory with a machine for each seat, and the words that a table says are in it.
#[derive(Drop)]
pub struct Play<C: Normalized> {
    cells: Cells,
    told: Vec<u64>,
    machines: Vec<Machine<C>>,
}

impl<C: Normalized> Play<C> {
    /// The memory as a run opens, with machines that have made no call.
    pub fn new(alloc: Global, setup: Setup) -> Option<Play<C>> {
        let mut machines = Vec::new(alloc);
        for seat in 0..setup.seats {
            machines.push(Machine::new(seat, setup)).ok()?;
        }
        Some(Play {
            cells: Cells::new(C::opening(alloc, setup.cap).ok()?),
            told: C::opening(alloc, setup.cap).ok()?,
            machines,
        })
    }

    /// Begins the next call of a seat that rests, its first step not made yet. Whether it could.
    pub fn begin(&mut self, seat: u32, op: Op) -> bool {
        let Some(machine) = self.machines.get_mut(seat as usize) else {
            return false;
        };
        if !machine.is_idle() || machine.number() >= 65535 || !C::serves(op) {
            return false;
        }
        machine.start(op);
        true
    }

    /// Makes the next step of a seat, where a call of it runs.
    pub fn step(&mut self, seat: u32) -> Option<Made> {
        let machine = self.machines.get_mut(seat as usize)?;
        if machine.is_idle() {
            return None;
        }
        let request = machine.request();
        let seen = self.cells.apply(request);
        let turn = machine.feed(seen);
        Some(Made {
            request,
            seen,
            turn,
        })
    }

    /// Makes so many steps of a seat, and gives the last.
    pub fn steps(&mut self, seat: u32, count: u32) -> Option<Made> {
        let mut last = None;
        for _ in 0..count {
            last = self.step(seat);
        }
        last
    }

    /// Makes the steps of a seat up to the end of its call, and gives its line.
    pub fn finish(&mut self, seat: u32) -> Option<Receipt> {
        for _ in 0..PATIENCE {
            if let Turn::Returned(receipt) = self.step(seat)?.turn {
                return Some(receipt);
            }
        }
        None
    }

    /// Makes the steps of a seat up to its next exchange of the word at a place, without that one. Whether it comes.
    pub fn reach(&mut self, seat: u32, place: u32) -> bool {
        for _ in 0..PATIENCE {
            if let Some(Request::Exchange { at, .. }) = self.next(seat) {
                if at == place {
                    return true;
                }
            }
            self.step(seat);
        }
        false
    }

    /// Makes a step of a seat, and more up to its next exchange of a list's entry, without that one. Whether it comes
    /// before the call ends.
    pub fn reach_listed(&mut self, seat: u32) -> bool {
        for _ in 0..PATIENCE {
            self.step(seat);
            match self.machines.get(seat as usize) {
                Some(machine) if machine.next_is_listed() => return true,
                Some(machine) if machine.is_idle() => return false,
                _ => {}
            }
        }
        false
    }

    /// What a seat asks for next.
    pub fn next(&self, seat: u32) -> Option<Request> {
        let machine = self.machines.get(seat as usize)?;
        if machine.is_idle() {
            return None;
        }
        Some(machine.request())
    }

    /// The path of the call of a seat that runs, once its begin tick is drawn.
    pub fn path(&self, seat: u32) -> Option<Path> {
        let machine = self.machines.get(seat as usize)?;
        Some(machine.pending()?.path)
    }

    /// The word at a place.
    pub fn word(&self, place: u32) -> Option<u64> {
        self.cells.words().get(place as usize).copied()
    }

    /// Makes the steps of a table: each has to ask for what its row asks for and to see what it sees, and after it each
    /// word has to be as before, but for the one that the row changes. Gives the last turn, or the number of the
    /// first row that was another, with the step that was made in its place.
    pub fn walk(&mut self, seat: u32, rows: &[Row]) -> Result<Turn, (usize, Option<Made>)> {
        self.look();
        let mut turn = Turn::Going;
        for (number, row) in rows.iter().enumerate() {
            let made = self.step(seat);
            let (place, word) = row.leaves();
            self.tell(place, word);
            turn = match made {
                Some(made)
                    if made.request == row.request()
                        && made.seen == row.seen()
                        && self.is_as_told() => made.turn,
                _ => return Err((number, made)),
            };
        }
        Ok(turn)
    }

    /// Takes the words as they are for those that are told.
    fn look(&mut self) {
        for (told, word) in self.told.iter_mut().zip(self.cells.words()) {
            *told = *word;
        }
    }

    /// The word at a place is told.
    fn tell(&mut self, place: u32, word: u64) {
        if let Some(told) = self.told.get_mut(place as usize) {
            *told = word;
        }
    }

    /// Whether each word is the one that is told.
    fn is_as_told(&self) -> bool {
        self.cells.words() == self.told.as_slice()
    }
}
