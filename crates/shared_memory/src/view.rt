//! What a port knows of the run. No value of these types is ever made: they are what contracts speak of.

use fast_slow_engine::Machine;
use lin_report::Receipt;
use normal_traits::Normalized;
use std::collections::LinkedList;

/// A seat that was gathered into another one, with the lines of its calls.
pub struct Gathered {
    pub seat: u32,
    pub receipts: LinkedList<Receipt>,
}

/// The machine of a seat, the lines of its calls in order, and what was gathered into it.
pub struct View<C: Normalized> {
    /// False where it was gathered into another one.
    pub live: bool,
    pub machine: Machine<C>,
    pub receipts: LinkedList<Receipt>,
    pub gathered: LinkedList<Gathered>,
    /// Whether it is that of seat 0, or the one into which that was gathered.
    pub root: bool,
    /// How many numbers were split off, where it is the root.
    pub made: u32,
}
