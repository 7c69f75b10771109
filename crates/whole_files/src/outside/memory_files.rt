//! Files in memory, for tests and for whoever has the bytes already.
ghost use Rattle.std.specs.Prelude.{◌≡◌, ◌≢◌, ◌+◌, ◌≤◌, ◌<◌, ◌^◌, ◌↔◌, ◌-◌, if◌then◌else◌, IsTrue, ℕ, List, Option, Some, take, drop, length, min, map, IfOk, OnOk, OnErr, IsErr, IsNone, Some, ◌⊎◌, ◌++◌, IsSome, IfSome, slice_get, option_map, Contains, unwrap_or, [], ◌∷◌, string_bytes};
ghost use Rattle.std.specs.List.{position_from};
ghost use Rattle.std.specs.Str.{bytes_eq};
ghost use Rattle.std.specs.Io.KnownBytes.{Keeps, Consumes, IsAtEnd};
ghost use Rattle.whole_files.specs.Outside.{LAST_COUNT, Rose, StillTells, first_named};

use super::openings::Openings;
use super::{Failed, Files};
use std::marker::Model;

/// Files that tell their bytes. Of two files with one name the first counts. Calls of `start_file` and
/// `read` are counted together from 0, and a call fails exactly where its number is in the list of
/// failing calls, or where it names a file that isn't there. After a failed `start_file` no file is
/// chosen, and nothing is left to read.
#[derive(Drop)]
pub struct FilesInMemory {
    files: Vec<(String, Vec<u8>)>,
    fails: Vec<u64>,
    most: usize,
    calls: u64,
    chosen: usize,
    at: usize,
    opened: Openings,
    faults: u64,
}

impl Model for FilesInMemory {
    ghost use Rattle.std.specs.Prelude.{[], ◌<◌, drop, map, slice_get, string_bytes};
    ghost use Rattle.std.specs.Option.{option_map_or};
    ghost use Rattle.whole_files.specs.MemoryFiles.{MemoryFiles};

    ghost Value = { MemoryFiles };

    ghost view = { λ f. record { files = map (λ file. (string_bytes file.0, file.1.items)) f.files.items; fails = f.fails.items; most = f.most; calls = f.calls; rest = option_map_or (λ file. drop f.at file.1.items) (slice_get f.files.items f.chosen) []; opened = f.opened.list; faults = f.faults } };

    ghost invariant = { λ f. 0 < f.most };
}

impl FilesInMemory {
    /// Files of which reads give as many bytes as are asked for.
    pub fn new(files: Vec<(String, Vec<u8>)>, fails: Vec<u64>) -> Self
        ensures files { result.files ≡ map (λ file. (string_bytes file.0, file.1.items)) files.items }
        ensures fails { result.fails ≡ fails.items }
        ensures most { result.most ≡ 2 ^ 64 - 1 }
        ensures calls { result.calls ≡ 0 }
        ensures faults { result.faults ≡ 0 }
    {
        Self::in_pieces(files, fails, usize::MAX)
    }

    /// Files of which a read gives at most `most` bytes.
    pub fn in_pieces(files: Vec<(String, Vec<u8>)>, fails: Vec<u64>, most: usize) -> Self
        requires { 0 < most }
        ensures files { result.files ≡ map (λ file. (string_bytes file.0, file.1.items)) files.items }
        ensures fails { result.fails ≡ fails.items }
        ensures most { result.most ≡ most }
        ensures calls { result.calls ≡ 0 }
        ensures faults { result.faults ≡ 0 }
    {
        let chosen = files.len();
        FilesInMemory {
            files,
            fails,
            most,
            calls: 0,
            chosen,
            at: 0,
            opened: Openings::new(),
            faults: 0,
        }
    }

    /// How many calls of `start_file` and `read` were made.
    pub fn calls(&self) -> u64
        ensures { result ≡ self.now.calls }
    {
        self.calls
    }
}

/// Where the first file with this name is.
fn file_place(files: &[(String, Vec<u8>)], name: &str) -> Option<usize>
    ensures { result ≡ position_from (λ file. bytes_eq (string_bytes file.0) name.now) 0 files.now }
{
    files.iter().position(|file| file.0.as_str() == name)
}

/// Copies the first bytes that there is room for, at most `most`, and answers how many.
fn copy_front(into: &mut [u8], bytes: &[u8], most: usize) -> usize
    ensures count { result ≡ min (min (length bytes.now) (length into.old)) most }
    ensures copied { take result into.new ≡ take result bytes.now }
{
    let count = bytes.len().min(into.len()).min(most);
    into[..count].copy_from_slice(&bytes[..count]);
    count
}

impl FilesInMemory {
    /// The bytes of the chosen file that were not read yet.
    fn rest(&self) -> &[u8]
        ensures { result.now ≡ self.now.rest }
    {
        match self.files.get(self.chosen) {
            Some(file) => &file.1[self.at.min(file.1.len())..],
            None => &[],
        }
    }

    /// Chooses the first file with this name, or none where there is none.
    fn choose(&mut self, name: &str) -> bool
        ensures found { IsTrue result ↔ IsSome (first_named name.now self.old.files) }
        ensures chosen { self.new ≡ record self.old { rest = unwrap_or (first_named name.now self.old.files) [] } }
    {
        self.at = 0;
        match file_place(&self.files, name) {
            Some(place) => {
                self.chosen = place;
                true
            }
            None => {
                self.chosen = self.files.len();
                false
            }
        }
    }

    /// Passes over bytes that were read.
    fn pass_over(&mut self, count: usize)
        requires { count ≤ length self.old.rest }
        ensures { self.new ≡ record self.old { rest = drop count self.old.rest } }
    {
        self.at = self.at.saturating_add(count);
    }

    /// Counts a call, and answers whether it is one that fails.
    fn count_call(&mut self) -> bool
        ensures fails { IsTrue result ↔ Contains self.old.fails self.old.calls }
        ensures counted { self.new ≡ record self.old { calls = min (self.old.calls + 1) LAST_COUNT; faults = if result then min (self.old.faults + 1) LAST_COUNT else self.old.faults } }
    {
        let fails = self.fails.contains(&self.calls);
        self.calls = self.calls.saturating_add(1);
        if fails {
            self.faults = self.faults.saturating_add(1);
        }
        fails
    }
}

impl Files for FilesInMemory {
    ghost use Rattle.std.specs.Prelude.{true, Some};
    ghost use Rattle.whole_files.specs.Outside.{first_named};

    ghost tells = { λ _. true };

    ghost held = { λ f name. first_named name f.files };

    ghost left = { λ f. Some f.rest };

    ghost opened = { λ f. f.opened };

    ghost faults = { λ f. f.faults };

    fn start_file(&mut self, name: &str) -> Result<(), Failed>
        ensures chosen { OnOk result (first_named name.now self.old.files ≡ Some self.new.rest) }
        ensures held { (n : List ℕ) → first_named n self.new.files ≡ first_named n self.old.files }
        ensures opened { self.new.opened ≡ (name.now, self.old.faults) ∷ self.old.opened }
        ensures calm { OnOk result (self.new.faults ≡ self.old.faults) }
        ensures fault { OnErr result (Rose self.old.faults self.new.faults) }

        // It fails exactly where it is to, or where there is no such file, and then nothing is left.
        ensures fails { IsErr result ↔ (Contains self.old.fails self.old.calls ⊎ IsNone (first_named name.now self.old.files)) }
        ensures none_left { OnErr result (self.new.rest ≡ []) }
        ensures counted { self.new.calls ≡ min (self.old.calls + 1) LAST_COUNT }
        ensures same { (self.new.files ≡ self.old.files) × (self.new.fails ≡ self.old.fails) × (self.new.most ≡ self.old.most) }
    {
        self.opened.note(name.as_bytes(), &self.faults);
        let fails = self.count_call();
        if !self.choose(name) {
            self.faults = self.faults.saturating_add(1);
            return Err(Failed);
        }
        if fails {
            self.chosen = self.files.len();
            return Err(Failed);
        }
        Ok(())
    }

    fn read(&mut self, into: &mut [u8]) -> Result<usize, Failed>
        ensures fits { IfOk result (λ n. n ≤ length into.new) }
        ensures reads { IfOk result (λ n. self.old.rest ≡ take n into.new ++ self.new.rest) }
        ensures end { IfOk result (λ n. n ≡ 0 → 0 < length into.new → self.new.rest ≡ []) }
        ensures still { StillTells (Some self.old.rest) (Some self.new.rest) }
        ensures held { (n : List ℕ) → first_named n self.new.files ≡ first_named n self.old.files }
        ensures opened { self.new.opened ≡ self.old.opened }
        ensures calm { OnOk result (self.new.faults ≡ self.old.faults) }
        ensures fault { OnErr result (Rose self.old.faults self.new.faults) }

        // It fails exactly where it is to, and gives as many bytes as there are, fit and may be given.
        ensures fails { IsErr result ↔ Contains self.old.fails self.old.calls }
        ensures count { IfOk result (λ n. n ≡ min (min (length self.old.rest) (length into.new)) self.old.most) }
        ensures counted { self.new.calls ≡ min (self.old.calls + 1) LAST_COUNT }
        ensures same { (self.new.files ≡ self.old.files) × (self.new.fails ≡ self.old.fails) × (self.new.most ≡ self.old.most) }
    {
        if self.count_call() {
            return Err(Failed);
        }
        let count = copy_front(into, self.rest(), self.most);
        self.pass_over(count);
        Ok(count)
    }
}
