//! Tries of the calls of a queue.

use crate::seated::{Seated, Whole};
use fast_slow_engine::{Call, Tried};
use ms_queue::{MsQueue, QueueSearch, QueueWrap};
use shared_memory::{SeatPort, Shared};
use step_memory::Seen;
use thread_runs::Tries;
use whole_calls::{Steps, try_once};

impl Steps<MsQueue> for Seated<'_, MsQueue> {
    ghost use Rattle.std.specs.Prelude.{ℕ};
    ghost use Rattle.ms_queue.specs.declared.queue.MsQueue.{MsQueue};
    ghost use Rattle.ms_queue_form.specs.declared.states.QueueSearch.{QueueSearch};
    ghost use Rattle.ms_queue_form.specs.declared.states.QueueWrap.{QueueWrap};
    ghost use Rattle.shared_memory.specs.Views.{Face, Memory, beside};

    ghost Rest = { ℕ × Memory × Face MsQueue QueueSearch QueueWrap };

    ghost machine = { λ s. s.port.now.view.machine };

    ghost rest = { λ s. (s.port.ghost_name, s.shared.now, beside s.port.now) };

    #[inline(always)]
    fn load(&mut self, at: u32) -> u64 {
        self.shared.load(self.port, at)
    }

    #[inline(always)]
    fn store(&mut self, at: u32, value: u64) {
        self.shared.store(self.port, at, value);
    }

    #[inline(always)]
    fn add(&mut self, at: u32, by: u64) -> u64 {
        self.shared.add(self.port, at, by)
    }

    #[inline(always)]
    fn exchange(&mut self, at: u32, from: u64, to: u64) -> Seen {
        self.shared.exchange(self.port, at, from, to)
    }
}

impl Tries<MsQueue> for Whole {
    #[inline(always)]
    fn try_once(
        shared: &Shared<MsQueue>,
        port: &mut SeatPort<MsQueue>,
        call: &mut Call,
    ) -> Tried<QueueSearch, QueueWrap> {
        try_once::<MsQueue, Seated<MsQueue>>(call, &mut Seated { shared, port })
    }
}
