//! Shared structures by the names of their calls: a queue, a stack, two sets and a map, each over one table of atomic words,
//! for threads of one's own. Each thread has a handle, and a handle makes the calls of its structure and no others.
//!
//! Each is seen at work in a program or a test:
//! - `example_work_queue`: `open`, `OpenError`, `QueueHandle`, `SharedQueue`, `Refused`;
//! - `example_shared_set`: `SetHandle`, `SharedSet`, `Key`;
//! - `thread_tests/src/handle_calls.rt`: each call of `StackHandle`, `HashSetHandle`, `MapHandle` and the others, `Shared`,
//!   `Handle`, `Spent`, `Key::new`;
//! - `thread_tests/src/in_threads.rt`: all handles in threads, `close` and `Totals`.
#![tactic(auto)]

pub use handles::{Handle, OpenError, Spent, close, open};
pub use hash_set::{Buckets, HashSetHandle, SharedHashSet};
pub use key::Key;
pub use map::{MapHandle, SharedMap};
pub use queue::{QueueHandle, SharedQueue};
pub use refused::Refused;
pub use set::{SetHandle, SharedSet};
pub use shared_memory::{Shared, Totals};
pub use stack::{SharedStack, StackHandle};

mod answers;
pub mod hash_set;
pub mod key;
pub mod laws;
pub mod map;
pub mod queue;
pub mod refused;
pub mod set;
pub mod stack;
mod values;
