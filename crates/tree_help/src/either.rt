//! The help of any update word that isn't clean.
ghost use Rattle.std.specs.Prelude.{◌≡◌, ◌≢◌};
ghost use Rattle.tree_help.specs.Helps.{Fits, help_asked, help_fed, help_of};
ghost use Rattle.tree_help.specs.Updates.{state_of};

use crate::states::{
    CLEAN, DELETING, Flag, Help, HelpDelete, HelpInsert, HelpMark, Helping, INSERTING,
};
use crate::words::{block_of, state_of};
use step_memory::{Request, Seen};

impl Help {
    /// The help of a word that isn't clean, by its state.
    pub fn new(flag: Flag) -> Help
        requires { state_of flag.word ≢ CLEAN }
        ensures help { result ≡ help_of flag }
        ensures fits { Fits result }
    {
        match state_of(flag.word) {
            INSERTING => Help::Insert {
                help: HelpInsert::new(flag.place, flag.word),
            },
            DELETING => Help::Delete {
                help: HelpDelete::new(flag.place, flag.word),
            },
            _ => Help::Mark {
                help: HelpMark::new(block_of(flag.word)),
            },
        }
    }

    /// What it asks for.
    pub fn request(&self) -> Request
        requires { Fits self.now }
        ensures { result ≡ help_asked self.now }
    {
        match self {
            Help::Insert { help } => help.request(),
            Help::Delete { help } => help.request(),
            Help::Mark { help } => help.request(),
        }
    }

    /// Takes in what its step saw.
    pub fn feed(&mut self, seen: Seen) -> Helping
        requires { Fits self.old }
        ensures help { self.new ≡ (help_fed self.old seen).0 }
        ensures helping { result ≡ (help_fed self.old seen).1 }
        ensures fits { Fits self.new }
    {
        match self {
            Help::Insert { help } => help.feed(seen),
            Help::Delete { help } => help.feed(seen),
            Help::Mark { help } => help.feed(seen),
        }
    }
}
