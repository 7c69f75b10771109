//! The text on standard error for the status with which the program ends.
use crate::causes::cause_text;
use crate::file_words::{NamedFile, Trouble, file_named};
use crate::said::{Said, read_said};
use crate::unseen::{line_numbered, unseen_in};
use crate::usage::{USAGE, VERSION, push_word_fault};
use crate::word_faults::word_fault;
use command_line::client_named;
use lin_report::Client;
use std::alloc::{AllocError, Global};
use std::fmt::Write;

/// What is known when the program ends.
#[derive(Clone, Copy, Debug)]
pub struct Ending<'a> {
    pub status: u8,
    /// The words behind the program's name.
    pub words: &'a [String],
    /// The first bytes on standard output.
    pub written: &'a [u8],
    /// The first bytes of the file that was read last.
    pub read: &'a [u8],
}

/// What stands on standard error where the words are not served.
fn usage(text: &mut String, words: &[String]) -> Result<(), AllocError> {
    let first = match words {
        [first, ..] => first.as_str(),
        [] => "",
    };
    match first {
        "--version" => text.push_str(VERSION),
        "--help" => text.push_str(USAGE),
        _ => {
            if let Some(fault) = word_fault(words) {
                push_word_fault(text, words, fault)?;
            }
            text.push_str(USAGE)
        }
    }
}

/// The client that the second word names.
fn client_in(words: &[String]) -> Option<Client> {
    client_named(words.get(1)?.as_str())
}

/// Puts what is wrong with a line of a file last.
fn refused(
    text: &mut String,
    ending: &Ending<'_>,
    file: NamedFile<'_>,
    number: u32,
    cause: u32,
) -> Result<(), AllocError> {
    let name = file.name;
    let meaning = cause_text(cause, file.kind, client_in(ending.words));
    if number == 0 {
        return writeln!(text, "nwf: {name:?}: {meaning}");
    }
    writeln!(text, "nwf: {name:?}, line {number}: {meaning}")?;
    let Some(line) = line_numbered(ending.read, number) else {
        return Ok(());
    };
    let shown = line.get(..64).unwrap_or(line).escape_ascii();
    writeln!(text, "  the line is '{shown}'")?;
    match unseen_in(number, line) {
        Some(unseen) => {
            let told = unseen.text();
            writeln!(text, "  {told}")
        }
        None => Ok(()),
    }
}

/// Puts what is told of a file last.
fn of_file(text: &mut String, ending: &Ending<'_>, trouble: Trouble) -> Result<(), AllocError> {
    match read_said(ending.written) {
        Some(Said::Refused { file, line, cause }) => match file_named(ending.words, file) {
            Some(named) => refused(text, ending, named, line, cause),
            None => text.push_str("nwf: a file isn't accepted\n"),
        },
        Some(Said::Unread { file }) => match file_named(ending.words, file) {
            Some(NamedFile { name, .. }) => {
                let told = trouble.text();
                writeln!(text, "nwf: {name:?}: {told}")
            }
            None => text.push_str("nwf: a file couldn't be opened or read\n"),
        },
        None => text.push_str("nwf: a file isn't accepted, or couldn't be read\n"),
    }
}

/// What a person is told on standard error; nothing where standard output says it all.
pub fn explain(alloc: Global, ending: &Ending<'_>, trouble: Trouble) -> Result<String, AllocError> {
    let mut text = String::new(alloc);
    match ending.status {
        2 => usage(&mut text, ending.words)?,
        3 | 4 => of_file(&mut text, ending, trouble)?,
        5 => text.push_str(
            "nwf: standard output took no more bytes: the disk may be full, or its reader has stopped\n",
        )?,
        _ => {}
    }
    Ok(text)
}
