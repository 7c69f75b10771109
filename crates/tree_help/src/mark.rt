//! The help of a removal whose mark was met: its flag is looked for, at the node whose child is to swing.
ghost use Rattle.std.specs.Prelude.{◌≡◌, ◌<◌, ◌^◌};
ghost use Rattle.tree_help.specs.Helps.{NamesBlock, flag_found, is_flag_of, mark_asked, mark_fed};

use crate::states::{DELETING, Flag, HelpDelete, HelpMark, Helping, SWING_PLACE};
use crate::words::{flag_place, is_modified, note_at, place_in, value_of};
use step_memory::{Request, Seen};

/// Whether a word is a removal's flag of this block, with its bit clear.
fn is_flag_of(block: u32, word: u64) -> bool
    ensures { result ≡ is_flag_of block word }
{
    u64::from(value_of(word)) == 4 * u64::from(block) + u64::from(DELETING) && !is_modified(word)
}

/// The update word at which the flag may stand was loaded.
fn flag_found(block: u32, at: u32, word: u64) -> (HelpMark, Helping)
    ensures { result ≡ flag_found block at word }
{
    if !is_flag_of(block, word) {
        return (HelpMark::FindFlag { block, at }, Helping::Finished);
    }
    let flag = Flag { place: at, word };
    let help = HelpDelete::MarkPlace { flag };
    (HelpMark::Deletes { help }, Helping::Running)
}

impl HelpMark {
    ghost use Rattle.tree_help.specs.declared.states.HelpMark.TheVariants.{FindPlace};

    /// The help of the removal that has this block, at its beginning.
    pub fn new(block: u32) -> HelpMark
        requires { block < 2 ^ 22 }
        ensures help { result ≡ FindPlace block }
        ensures names { NamesBlock result }
    {
        HelpMark::FindPlace { block }
    }

    /// What it asks for.
    pub fn request(&self) -> Request
        requires { NamesBlock self.now }
        ensures { result ≡ mark_asked self.now }
    {
        match self {
            HelpMark::FindPlace { block } => Request::Load {
                at: note_at(*block, SWING_PLACE),
            },
            HelpMark::FindFlag { at, .. } => Request::Load { at: *at },
            HelpMark::Deletes { help } => help.request(),
        }
    }

    /// Takes in what its step saw.
    pub fn feed(&mut self, seen: Seen) -> Helping
        ensures help { self.new ≡ (mark_fed self.old seen).0 }
        ensures helping { result ≡ (mark_fed self.old seen).1 }
        ensures names { NamesBlock self.new }
    {
        let (after, helping) = match *self {
            HelpMark::FindPlace { block } => {
                let at = flag_place(place_in(seen.before));
                (HelpMark::FindFlag { block, at }, Helping::Running)
            }
            HelpMark::FindFlag { block, at } => flag_found(block, at, seen.before),
            HelpMark::Deletes { mut help } => {
                let helping = help.feed(seen);
                (HelpMark::Deletes { help }, helping)
            }
        };
        *self = after;
        helping
    }
}
