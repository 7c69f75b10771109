//! Rows of calls on files and sinks in memory. They write `/` for a newline and `|` between command files.
use crate::replay::replay_main;
use std::alloc::{AllocError, Global};
use std::process::Abort;
use std::test::Fail;
use whole_files::{FilesInMemory, SinkInMemory};

/// The words of a command line, the schedule, the command files, the status, and what is written.
pub type Row = (&'static str, &'static str, &'static str, u8, &'static str);

/// Ample room of a sink.
pub const AMPLE: usize = 2000;

pub const ONE: &str = "replay queue 8 3 s f0";

pub const TWO: &str = "replay queue 8 3 s f0 f1";

pub const ONE_LIST: &str = "replay list 8 3 s f0";

pub const TWO_LIST: &str = "replay list 8 3 s f0 f1";

/// The words of a command line, each two of them with one space between.
pub fn words_of(alloc: Global, line: &str) -> Result<Vec<String>, AllocError> {
    let mut words = Vec::new(alloc);
    if !line.is_empty() {
        for word in line.split(' ') {
            words.push(String::from_str(alloc, word)?)?;
        }
    }
    Ok(words)
}

/// The bytes of a text of a row.
pub fn bytes_of(alloc: Global, text: &str) -> Result<Vec<u8>, AllocError> {
    let mut bytes = Vec::new(alloc);
    for byte in text.bytes() {
        bytes.push(if byte == b'/' { b'\n' } else { byte })?;
    }
    Ok(bytes)
}

/// The schedule `s` and the command files `f0` to `f7` of a row, of which these calls fail.
pub fn files_of(
    alloc: Global,
    schedule: &str,
    commands: &str,
    fails: &[u64],
    piece: usize,
) -> Result<FilesInMemory, AllocError> {
    let mut files = Vec::new(alloc);
    files.push((String::from_str(alloc, "s")?, bytes_of(alloc, schedule)?))?;
    let mut names = ["f0", "f1", "f2", "f3", "f4", "f5", "f6", "f7"].iter();
    for file in commands.split('|') {
        if let Some(name) = names.next() {
            files.push((String::from_str(alloc, name)?, bytes_of(alloc, file)?))?;
        }
    }
    Ok(FilesInMemory::in_pieces(files, Vec::from_slice(alloc, fails)?, piece.max(1)))
}

/// The status of a call over ample memory.
pub fn replayed(
    alloc: Global,
    words: &str,
    files: &mut FilesInMemory,
    sink: &mut SinkInMemory,
) -> Result<u8, AllocError> {
    let words = words_of(alloc, words)?;
    Ok(replay_main(alloc, &words, files, sink))
}

/// Compares what each row writes, read and written at once and byte by byte.
pub fn compare(rt: &impl Abort, alloc: Global, rows: &[Row]) -> Result<(), Fail> {
    for (words, schedule, commands, status, text) in rows {
        let wanted = bytes_of(alloc, text)?;
        for piece in [usize::MAX, 1] {
            let mut files = files_of(alloc, schedule, commands, &[], piece)?;
            let mut sink = SinkInMemory::in_pieces(alloc, AMPLE, Vec::new(alloc), piece.max(1))?;
            let got = replayed(alloc, words, &mut files, &mut sink)?;
            assert_eq!(rt; sink.bytes(), wanted.as_slice(), "{schedule}");
            assert_eq!(rt; got, *status, "{schedule}");
        }
    }
    Ok(())
}
