//! Files and a sink that keep the first bytes that pass, for what a person is told at the end. To whom they hand the
//! bytes on, and what that answers, stays.
#![tactic(auto)]

ghost use Rattle.std.specs.Prelude.{◌≤◌, length};

use std::alloc::Global;
use whole_files::{Failed, Files, Sink};

#[cfg(test)]
mod tests;

/// The most bytes of a file that are kept: as many as a command file may have.
const MOST_OF_FILE: usize = 1_048_576;
/// The most bytes of standard output that are kept: no message is longer.
const MOST_OF_OUT: usize = 160;

/// The first bytes of what passed; none any more where one of them found no room.
#[derive(Drop)]
struct Kept {
    bytes: Vec<u8>,
    most: usize,
}

impl Kept {
    fn new(alloc: Global, most: usize) -> Self {
        Kept {
            bytes: Vec::new(alloc),
            most,
        }
    }

    /// Begins anew.
    fn start(&mut self, most: usize) {
        self.bytes.clear();
        self.most = most;
    }

    /// Keeps so many bytes more, up to the most.
    fn keep(&mut self, bytes: &[u8], count: usize)
        requires { count ≤ length bytes.now }
    {
        let room = self.most.saturating_sub(self.bytes.len());
        if self
            .bytes
            .extend_from_slice(&bytes[..count.min(room)])
            .is_err()
        {
            self.start(0);
        }
    }
}

/// Files that keep the first bytes of the one that is read.
#[derive(Drop)]
pub struct WatchedFiles<F> {
    files: F,
    kept: Kept,
}

impl<F: Files> WatchedFiles<F> {
    /// Nothing has passed yet.
    pub fn new(alloc: Global, files: F) -> Self {
        WatchedFiles {
            files,
            kept: Kept::new(alloc, MOST_OF_FILE),
        }
    }

    /// The first bytes of the file that was read last.
    pub fn kept(&self) -> &[u8] {
        &self.kept.bytes
    }
}

impl<F: Files> Files for WatchedFiles<F> {
    ghost tells = { λ w. F.tells w.files };

    ghost held = { λ w. F.held w.files };

    ghost left = { λ w. F.left w.files };

    ghost opened = { λ w. F.opened w.files };

    ghost faults = { λ w. F.faults w.files };

    fn start_file(&mut self, name: &str) -> Result<(), Failed> {
        self.kept.start(MOST_OF_FILE);
        self.files.start_file(name)
    }

    fn read(&mut self, into: &mut [u8]) -> Result<usize, Failed> {
        match self.files.read(into) {
            Ok(count) => {
                self.kept.keep(into, count);
                Ok(count)
            }
            Err(failed) => Err(failed),
        }
    }
}

/// A sink that keeps the first bytes that are written.
#[derive(Drop)]
pub struct WatchedOut<K> {
    out: K,
    kept: Kept,
}

impl<K: Sink> WatchedOut<K> {
    /// Nothing has passed yet.
    pub fn new(alloc: Global, out: K) -> Self {
        WatchedOut {
            out,
            kept: Kept::new(alloc, MOST_OF_OUT),
        }
    }

    /// The first bytes that were written.
    pub fn kept(&self) -> &[u8] {
        &self.kept.bytes
    }
}

impl<K: Sink> Sink for WatchedOut<K> {
    ghost written = { λ w. K.written w.out };

    ghost faults = { λ w. K.faults w.out };

    fn put(&mut self, bytes: &[u8]) -> Result<usize, Failed> {
        match self.out.put(bytes) {
            Ok(count) => {
                self.kept.keep(bytes, count);
                Ok(count)
            }
            Err(failed) => Err(failed),
        }
    }
}
