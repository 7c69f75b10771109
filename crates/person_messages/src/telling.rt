//! Tells a person on standard error how the program ended. Where that can't be written the status stays.
use crate::endings::{Ending, explain};
use crate::file_words::{NamedFile, Trouble, file_named};
use crate::said::{Said, read_said};
use std::alloc::Global;
use std::rt::Files;
use std::{fs, io};

/// Why the file of this name may not have been read, as the host tells it now.
fn trouble_of(rt: &impl Files, name: &str) -> Trouble {
    match fs::metadata(rt, name) {
        Ok(found) if found.is_dir() => Trouble::Directory,
        Ok(_) => Trouble::Unknown,
        Err(error) => match error.kind() {
            io::ErrorKind::NotFound => Trouble::Missing,
            io::ErrorKind::PermissionDenied => Trouble::Forbidden,
            _ => Trouble::Unknown,
        },
    }
}

/// The name of the file that couldn't be opened or read.
fn unread_name<'a>(ending: &Ending<'a>) -> Option<&'a str> {
    let Some(Said::Unread { file }) = read_said(ending.written) else {
        return None;
    };
    let words = ending.words;
    let NamedFile { name, .. } = file_named(words, file)?;
    Some(name)
}

/// Writes what a person is told.
pub fn tell(rt: &(impl Files + Eprint), alloc: Global, ending: &Ending<'_>) {
    let trouble = match unread_name(ending) {
        Some(name) if ending.status == 4 => trouble_of(rt, name),
        _ => Trouble::Unknown,
    };
    if let Ok(text) = explain(alloc, ending, trouble) {
        let _ = rt.eprint(text.as_str());
    }
}
