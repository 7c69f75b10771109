//! Tries of the calls of a search tree.

use crate::seated::{Seated, Whole};
use ellen_tree::EllenTree;
use ellen_tree_form::TreeSearch;
use fast_slow_engine::{Call, Tried};
use shared_memory::{SeatPort, Shared};
use step_memory::Seen;
use thread_runs::Tries;
use tree_help::Help;
use whole_calls::{Steps, try_once};

impl Steps<EllenTree> for Seated<'_, EllenTree> {
    ghost use Rattle.std.specs.Prelude.{ℕ};
    ghost use Rattle.ellen_tree.specs.declared.tree.EllenTree.{EllenTree};
    ghost use Rattle.ellen_tree_form.specs.declared.states.TreeSearch.{TreeSearch};
    ghost use Rattle.tree_help.specs.declared.states.Help.{Help};
    ghost use Rattle.shared_memory.specs.Views.{Face, Memory, beside};

    ghost Rest = { ℕ × Memory × Face EllenTree TreeSearch Help };

    ghost machine = { λ s. s.port.now.view.machine };

    ghost rest = { λ s. (s.port.ghost_name, s.shared.now, beside s.port.now) };

    #[inline(always)]
    fn load(&mut self, at: u32) -> u64 {
        self.shared.load(self.port, at)
    }

    #[inline(always)]
    fn store(&mut self, at: u32, value: u64) {
        self.shared.store(self.port, at, value);
    }

    #[inline(always)]
    fn add(&mut self, at: u32, by: u64) -> u64 {
        self.shared.add(self.port, at, by)
    }

    #[inline(always)]
    fn exchange(&mut self, at: u32, from: u64, to: u64) -> Seen {
        self.shared.exchange(self.port, at, from, to)
    }
}

impl Tries<EllenTree> for Whole {
    #[inline(always)]
    fn try_once(
        shared: &Shared<EllenTree>,
        port: &mut SeatPort<EllenTree>,
        call: &mut Call,
    ) -> Tried<TreeSearch, Help> {
        try_once::<EllenTree, Seated<EllenTree>>(call, &mut Seated { shared, port })
    }
}
