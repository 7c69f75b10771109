//! The help of an insertion: its child is exchanged to the new node, and its flag taken away.
ghost use Rattle.std.specs.Prelude.{◌≡◌, ◌≢◌};
ghost use Rattle.tree_help.specs.Helps.{flag_block, insert_asked, insert_next, insert_fed, unflagging};
ghost use Rattle.tree_help.specs.Updates.{state_of};

use crate::states::{CLEAN, FIRST_PLACE, FIRST_WORD, Flag, HelpInsert, Helping, INSERTING};
use crate::words::{block_of, changed, note_at, place_in, updated};
use node_arena::reference_to;
use step_memory::{Request, Seen};

/// The exchange that takes a flag away.
pub fn unflagging(flag: Flag) -> Request
    ensures { result ≡ unflagging flag }
{
    Request::Exchange {
        at: flag.place,
        from: flag.word,
        to: updated(flag.word, block_of(flag.word), CLEAN),
    }
}

/// What a help is after its step.
fn insert_next(help: HelpInsert, seen: Seen) -> HelpInsert
    ensures { result ≡ insert_next help seen }
{
    let from = seen.before;
    match help {
        HelpInsert::ReadPlace { flag } => HelpInsert::ReadWord {
            flag,
            at: place_in(from),
        },
        HelpInsert::ReadWord { flag, at } => HelpInsert::Link { flag, at, from },
        HelpInsert::Link { flag, .. } | HelpInsert::Unflag { flag } => HelpInsert::Unflag { flag },
    }
}

impl HelpInsert {
    ghost use Rattle.step_memory.specs.declared.steps.Seen.{Seen};
    ghost use Rattle.tree_help.specs.declared.states.Flag.{Flag};
    ghost use Rattle.tree_help.specs.declared.states.Helping.TheVariants.{BackedOut, Finished};
    ghost use Rattle.tree_help.specs.declared.states.HelpInsert.TheVariants.{ReadPlace, Unflag};

    /// The help of a flag at its beginning.
    pub fn new(flag_at: u32, flag: u64) -> HelpInsert
        requires { state_of flag ≡ INSERTING }
        ensures { result ≡ ReadPlace (record { place = flag_at; word = flag }) }
    {
        HelpInsert::ReadPlace {
            flag: Flag {
                place: flag_at,
                word: flag,
            },
        }
    }

    /// What it asks for.
    pub fn request(&self) -> Request
        ensures { result ≡ insert_asked self.now }
    {
        match *self {
            HelpInsert::ReadPlace { flag } => Request::Load {
                at: note_at(block_of(flag.word), FIRST_PLACE),
            },
            HelpInsert::ReadWord { flag, .. } => Request::Load {
                at: note_at(block_of(flag.word), FIRST_WORD),
            },
            HelpInsert::Link { flag, at, from } => Request::Exchange {
                at,
                from,
                to: changed(from, reference_to(block_of(flag.word), 2)),
            },
            HelpInsert::Unflag { flag } => unflagging(flag),
        }
    }

    /// Takes in what its step saw. An insertion is never given up.
    pub fn feed(&mut self, seen: Seen) -> Helping
        ensures help { self.new ≡ (insert_fed self.old seen).0 }
        ensures helping { result ≡ (insert_fed self.old seen).1 }
        ensures never_given_up { result ≢ BackedOut }
    {
        let helping = match self {
            HelpInsert::Unflag { .. } => Helping::Finished,
            _ => Helping::Running,
        };
        *self = insert_next(*self, seen);
        helping
    }
}
