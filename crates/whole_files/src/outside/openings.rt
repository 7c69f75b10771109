//! What was opened, which only clauses read. It takes no memory, and its methods do nothing at run time.
ghost use Rattle.std.specs.Prelude.{◌≡◌, List, [], ◌∷◌};
ghost use Rattle.std.specs.Borrow.{ftrue};
ghost use Rattle.whole_files.specs.Outside.{Opening};

use std::marker::{Model, PhantomData};

/// The openings of files so far, the newest first.
#[derive(Drop)]
pub struct Openings {
    marker: PhantomData<u8>,
    pub ghost list: { List Opening },
}

impl Model for Openings {
    ghost also_owns = { λ _. ftrue };
}

impl Openings {
    /// No file was opened yet.
    pub fn new() -> Openings
        ensures { result.list ≡ [] }
    {
        Openings {
            marker: PhantomData,
        }
    }

    /// A file is opened under this name, after so many faults.
    pub fn note(&mut self, _name: &[u8], _faults: &u64)
        ensures { self.new.list ≡ (_name.now, _faults.now) ∷ self.old.list }
    {}
}
