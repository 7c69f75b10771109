//! What a top call reads and writes. Each object of the outside counts its faults, and it answers
//! `Failed` only where that count rose.
ghost use Rattle.std.specs.Prelude.{◌≡◌, ◌≤◌, ◌<◌, ◌∷◌, ℕ, Bool, IsTrue, List, Option, Some, take, length, IfOk, IsSomeAnd, OnOk, OnErr};
ghost use Rattle.std.specs.Io.KnownBytes.{Keeps, Appends, Consumes, IsAtEnd};
ghost use Rattle.whole_files.specs.Outside.{Opening, Rose, StillTells};

pub use host::{HostFiles, HostOut};
pub use memory_files::FilesInMemory;
pub use memory_sink::SinkInMemory;

mod host;
mod memory_files;
mod memory_sink;
mod openings;
#[cfg(test)]
mod tests;

/// A fault of the outside: a missing file, a failed read, a sink that takes nothing.
#[derive(Clone, Copy, Debug, PartialEq, Eq)]
pub struct Failed;

/// Files by their names, of which one is chosen and read from its first byte to its last.
pub trait Files {
    /// Whether the object tells its bytes.
    ghost tells: { Self → Bool };

    /// The bytes under a name, or none where there is no such file. It says so only where the object tells
    /// its bytes.
    ghost held: { Self → List ℕ → Option (List ℕ) };

    /// The bytes of the chosen file that were not read yet, where the object tells them.
    ghost left: { Self → Option (List ℕ) };

    /// The openings so far, the newest first: each with its name, and the count of faults before it.
    ghost opened: { Self → List Opening };

    /// How many faults there were. It never falls, and it may stay at its last value.
    ghost faults: { Self → ℕ };

    /// Chooses a file from its first byte. A name that isn't there is a fault.
    fn start_file(&mut self, name: &str) -> Result<(), Failed>
        ensures chosen { OnOk result (IsTrue (tells self.old) → IsSomeAnd (held self.old name.now) (λ bytes. left self.new ≡ Some bytes)) }
        ensures tells { tells self.new ≡ tells self.old }
        ensures held { (n : List ℕ) → held self.new n ≡ held self.old n }
        ensures opened { opened self.new ≡ (name.now, faults self.old) ∷ opened self.old }
        ensures calm { OnOk result (faults self.new ≡ faults self.old) }
        ensures fault { OnErr result (Rose (faults self.old) (faults self.new)) };

    /// Reads the next bytes of the chosen file, at most as many as there is room for, and answers how
    /// many. It answers 0 at the end of the file, and where there is no room.
    fn read(&mut self, into: &mut [u8]) -> Result<usize, Failed>
        ensures fits { IfOk result (λ n. n ≤ length into.new) }
        ensures reads { IfOk result (λ n. Consumes (left self.old) (left self.new) (take n into.new)) }
        ensures end { IfOk result (λ n. n ≡ 0 → 0 < length into.new → IsAtEnd (left self.new)) }
        ensures still { StillTells (left self.old) (left self.new) }
        ensures tells { tells self.new ≡ tells self.old }
        ensures held { (n : List ℕ) → held self.new n ≡ held self.old n }
        ensures opened { opened self.new ≡ opened self.old }
        ensures calm { OnOk result (faults self.new ≡ faults self.old) }
        ensures fault { OnErr result (Rose (faults self.old) (faults self.new)) };
}

/// Where bytes are written, one piece after another.
pub trait Sink {
    /// The bytes written so far, where the object tells them.
    ghost written: { Self → Option (List ℕ) };

    /// How many faults there were. It never falls, and it may stay at its last value.
    ghost faults: { Self → ℕ };

    /// Writes the first bytes of a piece, at least one where the piece has one, and answers how many. A
    /// sink that can take nothing of such a piece has a fault. After a fault nothing of it is written.
    fn put(&mut self, bytes: &[u8]) -> Result<usize, Failed>
        ensures fits { IfOk result (λ n. n ≤ length bytes.now) }
        ensures some { IfOk result (λ n. 0 < length bytes.now → 0 < n) }
        ensures writes { IfOk result (λ n. Appends (written self.old) (written self.new) (take n bytes.now)) }
        ensures kept { OnErr result (Keeps (written self.old) (written self.new)) }
        ensures calm { OnOk result (faults self.new ≡ faults self.old) }
        ensures fault { OnErr result (Rose (faults self.old) (faults self.new)) };
}
