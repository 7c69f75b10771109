//! The help of a removal: a node is marked, the child above it swings past it, and the flag is taken away.
ghost use Rattle.std.specs.Prelude.{◌≡◌, ◌≤◌};
ghost use Rattle.step_memory.specs.declared.steps.Request.TheVariants.{Load};
ghost use Rattle.tree_help.specs.Helps.{delete_asked, delete_fed, delete_next, flag_block, has_mark};
ghost use Rattle.tree_help.specs.Updates.{note_at, state_of};

use crate::insert::unflagging;
use crate::states::{
    DELETING, FIRST_PLACE, FIRST_WORD, Flag, HelpDelete, Helping, MARKED, STAY_PLACE, SWING_PLACE,
    SWING_WORD,
};
use crate::words::{block_of, changed, note_at, place_in, updated, value_of};
use step_memory::{Request, Seen};

/// Whether the update word of the node that is to go has the mark of the flag's block.
fn has_mark(flag: Flag, word: u64) -> bool
    ensures { result ≡ has_mark flag word }
{
    value_of(word) == 4 * block_of(flag.word) + MARKED
}

/// The load of a note of the flag's block.
fn noted(flag: Flag, note: u32) -> Request
    requires { note ≤ 4 }
    ensures { result ≡ Load (note_at (flag_block flag) note) }
{
    Request::Load {
        at: note_at(block_of(flag.word), note),
    }
}

/// What a help is after its step.
fn delete_next(help: HelpDelete, seen: Seen) -> HelpDelete
    ensures { result ≡ delete_next help seen }
{
    let from = seen.before;
    let noted = place_in(from);
    match help {
        HelpDelete::MarkPlace { flag } => HelpDelete::MarkWord { flag, at: noted },
        HelpDelete::MarkWord { flag, at } => HelpDelete::Mark { flag, at, from },
        HelpDelete::Mark { flag, at, .. } => HelpDelete::Check { flag, at },
        HelpDelete::Check { flag, .. } if has_mark(flag, from) => HelpDelete::StayPlace { flag },
        HelpDelete::Check { flag, .. } => HelpDelete::Unflag { flag, made: false },
        HelpDelete::StayPlace { flag } => HelpDelete::StayWord { flag, at: noted },
        HelpDelete::StayWord { flag, .. } => HelpDelete::SwingPlace { flag, stays: from },
        HelpDelete::SwingPlace { flag, stays } => HelpDelete::SwingWord {
            flag,
            stays,
            at: noted,
        },
        HelpDelete::SwingWord { flag, stays, at } => HelpDelete::Swing {
            flag,
            stays,
            at,
            from,
        },
        HelpDelete::Swing { flag, .. } => HelpDelete::Unflag { flag, made: true },
        HelpDelete::Unflag { .. } => help,
    }
}

impl HelpDelete {
    ghost use Rattle.std.specs.Prelude.{◌≢◌};
    ghost use Rattle.tree_help.specs.declared.states.Flag.{Flag};
    ghost use Rattle.tree_help.specs.declared.states.Helping.TheVariants.{BackedOut, Finished, Running};
    ghost use Rattle.tree_help.specs.declared.states.HelpDelete.TheVariants.{MarkPlace};

    /// The help of a flag at its beginning.
    pub fn new(flag_at: u32, flag: u64) -> HelpDelete
        requires { state_of flag ≡ DELETING }
        ensures { result ≡ MarkPlace (record { place = flag_at; word = flag }) }
    {
        HelpDelete::MarkPlace {
            flag: Flag {
                place: flag_at,
                word: flag,
            },
        }
    }

    /// What it asks for.
    pub fn request(&self) -> Request
        ensures { result ≡ delete_asked self.now }
    {
        match *self {
            HelpDelete::MarkPlace { flag } => noted(flag, FIRST_PLACE),
            HelpDelete::MarkWord { flag, .. } => noted(flag, FIRST_WORD),
            HelpDelete::Mark { flag, at, from } => Request::Exchange {
                at,
                from,
                to: updated(from, block_of(flag.word), MARKED),
            },
            HelpDelete::Check { at, .. } | HelpDelete::StayWord { at, .. } => Request::Load { at },
            HelpDelete::StayPlace { flag } => noted(flag, STAY_PLACE),
            HelpDelete::SwingPlace { flag, .. } => noted(flag, SWING_PLACE),
            HelpDelete::SwingWord { flag, .. } => noted(flag, SWING_WORD),
            HelpDelete::Swing {
                stays,
                at,
                from,
                ..
            } => Request::Exchange {
                at,
                from,
                to: changed(from, value_of(stays)),
            },
            HelpDelete::Unflag { flag, .. } => unflagging(flag),
        }
    }

    /// Takes in what its step saw.
    pub fn feed(&mut self, seen: Seen) -> Helping
        ensures help { self.new ≡ (delete_fed self.old seen).0 }
        ensures helping { result ≡ (delete_fed self.old seen).1 }
    {
        let helping = match self {
            HelpDelete::Unflag { made: true, .. } => Helping::Finished,
            HelpDelete::Unflag { made: false, .. } => Helping::BackedOut,
            _ => Helping::Running,
        };
        *self = delete_next(*self, seen);
        helping
    }
}
