//! Which word of the command line names a file that the program speaks of by its number.
use crate::forms::{Command, command_named};

/// What a file is.
#[derive(Clone, Copy, Debug, PartialEq, Eq)]
pub enum FileKind {
    Schedule,
    Commands,
    Report,
    Order,
}

/// A file by its name, and what it is.
#[derive(Clone, Copy, Debug, PartialEq, Eq)]
pub struct NamedFile<'a> {
    pub name: &'a str,
    pub kind: FileKind,
}

/// Why a file may not have been read.
#[derive(Clone, Copy, Debug, PartialEq, Eq)]
pub enum Trouble {
    /// There is no file of this name.
    Missing,
    /// It may not be read.
    Forbidden,
    /// It is a directory.
    Directory,
    /// What it is isn't known.
    Unknown,
}

/// Which word names the file of a number, and what the file is.
fn file_word(command: Command, file: usize) -> (usize, FileKind) {
    match command {
        Command::Replay if file == 0 => (4, FileKind::Schedule),
        Command::Replay | Command::Sweep => (file.saturating_add(4), FileKind::Commands),
        Command::Run | Command::Load => (file.saturating_add(3), FileKind::Commands),
        Command::Check if file == 0 => (2, FileKind::Report),
        Command::Check => (3, FileKind::Order),
    }
}

/// The file that these words name by the number of a message.
pub fn file_named(words: &[String], file: u32) -> Option<NamedFile<'_>> {
    let [first, ..] = words else {
        return None;
    };
    let command = command_named(first.as_str())?;
    let (at, kind) = file_word(command, file as usize);
    let name = words.get(at)?;
    Some(NamedFile {
        name: name.as_str(),
        kind,
    })
}

impl Trouble {
    /// What a person is told of it, behind the name of the file.
    pub fn text(self) -> &'static str {
        match self {
            Trouble::Missing => "there is no such file",
            Trouble::Forbidden => "it may not be read: see its permissions",
            Trouble::Directory => "it is a directory",
            Trouble::Unknown => "it couldn't be opened or read",
        }
    }
}
