//! The machine on its slow path, driven by hand over one memory with no core: what it asks for, step by step, and what
//! the words are then.
#![tactic(auto)]

#[cfg(test)]
mod acts;
#[cfg(test)]
mod alone;
#[cfg(test)]
mod blocks;
#[cfg(test)]
mod calls;
#[cfg(test)]
mod entering;
#[cfg(test)]
mod helped;
#[cfg(test)]
mod late;
#[cfg(test)]
mod later_calls;
#[cfg(test)]
mod layouts;
#[cfg(test)]
mod list_rows;
#[cfg(test)]
mod play;
#[cfg(test)]
mod queue_rows;
#[cfg(test)]
mod rounds;
#[cfg(test)]
mod rows;
#[cfg(test)]
mod words;
