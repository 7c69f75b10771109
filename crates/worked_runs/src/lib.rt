//! Worked runs of the queue, the list and the stack on the engine, step by step.
#![tactic(auto)]

#[cfg(test)]
mod called;
#[cfg(test)]
mod lists;
#[cfg(test)]
mod queues;
#[cfg(test)]
mod runs;
#[cfg(test)]
mod stacks;
