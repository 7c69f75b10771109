//! The host's files and standard output: the trusted edge, which tells no bytes.
ghost use Rattle.std.specs.Prelude.{◌≡◌, ◌≤◌, ◌<◌, ℕ, false, None, take, length, IfOk, OnOk, OnErr};

use super::openings::Openings;
use super::{Failed, Files, Sink};
use std::io::Read;
use std::{fs, rt};

/// The host's files. Each fault of the host counts, want of memory inside its calls among them.
#[derive(Drop)]
pub struct HostFiles<'a, R: rt::Files> {
    rt: &'a R,
    chosen: Option<R::File>,
    opened: Openings,
    faults: u64,
}

impl<'a, R: rt::Files> HostFiles<'a, R> {
    /// No file is chosen yet.
    pub fn new(rt: &'a R) -> Self {
        HostFiles {
            rt,
            chosen: None,
            opened: Openings::new(),
            faults: 0,
        }
    }
}

impl<R: rt::Files> Files for HostFiles<'_, R> {
    ghost tells = { λ _. false };

    ghost held = { λ _ _. None };

    ghost left = { λ _. None };

    ghost opened = { λ f. f.opened.list };

    ghost faults = { λ f. f.faults };

    fn start_file(&mut self, name: &str) -> Result<(), Failed> {
        self.opened.note(name.as_bytes(), &self.faults);
        match fs::open(self.rt, name) {
            Ok(file) => {
                self.chosen = Some(file);
                Ok(())
            }
            Err(_) => {
                self.chosen = None;
                self.faults = self.faults.saturating_add(1);
                Err(Failed)
            }
        }
    }

    fn read(&mut self, into: &mut [u8]) -> Result<usize, Failed> {
        let Some(file) = &mut self.chosen else {
            return Ok(0);
        };
        match file.read(into) {
            Ok(count) => Ok(count),
            Err(_) => {
                self.faults = self.faults.saturating_add(1);
                Err(Failed)
            }
        }
    }
}

/// Standard output. A write that takes nothing of a piece with bytes counts as a fault.
#[derive(Drop)]
pub struct HostOut<'a, R: Print> {
    rt: &'a R,
    faults: u64,
}

impl<'a, R: Print> HostOut<'a, R> {
    /// Standard output of this runtime.
    pub fn new(rt: &'a R) -> Self {
        HostOut { rt, faults: 0 }
    }
}

impl<R: Print> Sink for HostOut<'_, R> {
    ghost written = { λ _. None };

    ghost faults = { λ s. s.faults };

    fn put(&mut self, bytes: &[u8]) -> Result<usize, Failed> {
        match self.rt.write_some(bytes) {
            Ok(count) if count > 0 || bytes.is_empty() => Ok(count),
            _ => {
                self.faults = self.faults.saturating_add(1);
                Err(Failed)
            }
        }
    }
}
