//! Tries of the calls of a sorted list.

use crate::seated::{Seated, Whole};
use fast_slow_engine::{Call, Tried};
use harris_list::{HarrisList, Seeking};
use harris_list_form::ListWrap;
use shared_memory::{SeatPort, Shared};
use step_memory::Seen;
use thread_runs::Tries;
use whole_calls::{Steps, try_once};

impl Steps<HarrisList> for Seated<'_, HarrisList> {
    ghost use Rattle.std.specs.Prelude.{ℕ};
    ghost use Rattle.harris_list.specs.declared.list.HarrisList.{HarrisList};
    ghost use Rattle.harris_list_form.specs.declared.states.ListSearch.{ListSearch};
    ghost use Rattle.harris_list_form.specs.declared.states.ListWrap.{ListWrap};
    ghost use Rattle.shared_memory.specs.Views.{Face, Memory, beside};

    ghost Rest = { ℕ × Memory × Face HarrisList ListSearch ListWrap };

    ghost machine = { λ s. s.port.now.view.machine };

    ghost rest = { λ s. (s.port.ghost_name, s.shared.now, beside s.port.now) };

    #[inline(always)]
    fn load(&mut self, at: u32) -> u64 {
        self.shared.load(self.port, at)
    }

    #[inline(always)]
    fn store(&mut self, at: u32, value: u64) {
        self.shared.store(self.port, at, value);
    }

    #[inline(always)]
    fn add(&mut self, at: u32, by: u64) -> u64 {
        self.shared.add(self.port, at, by)
    }

    #[inline(always)]
    fn exchange(&mut self, at: u32, from: u64, to: u64) -> Seen {
        self.shared.exchange(self.port, at, from, to)
    }
}

impl Tries<HarrisList> for Whole {
    #[inline(always)]
    fn try_once(
        shared: &Shared<HarrisList>,
        port: &mut SeatPort<HarrisList>,
        call: &mut Call,
    ) -> Tried<Seeking, ListWrap> {
        try_once::<HarrisList, Seated<HarrisList>>(call, &mut Seated { shared, port })
    }
}
