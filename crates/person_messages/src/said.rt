//! The line that the program has written in place of a report, read back.
use script_reader::number_up_to;

/// What a line in place of a report says of a file.
#[derive(Clone, Copy, Debug, PartialEq, Eq)]
pub enum Said {
    /// This file is refused at this line, for the cause of this number.
    Refused { file: u32, line: u32, cause: u32 },
    /// This file couldn't be opened or read.
    Unread { file: u32 },
}

/// What stands behind some words and a space, up to the next space or the end.
fn number_behind<'a>(text: &'a str, words: &str) -> Option<(u32, &'a str)> {
    let rest = text.strip_prefix(words)?;
    let (digits, rest) = match rest.split_once(' ') {
        Some((digits, rest)) => (digits, rest),
        None => (rest, ""),
    };
    if digits.is_empty() {
        return None;
    }
    Some((number_up_to(u32::MAX, digits.as_bytes())?, rest))
}

fn read_refused(line: &str) -> Option<Said> {
    let (file, rest) = number_behind(line, "nwf: refused file ")?;
    let (line, rest) = number_behind(rest, "line ")?;
    let (cause, _) = number_behind(rest, "cause ")?;
    Some(Said::Refused { file, line, cause })
}

fn read_unread(line: &str) -> Option<Said> {
    let (file, _) = number_behind(line, "nwf: read fault file ")?;
    Some(Said::Unread { file })
}

/// What a line says of a file, where it does.
pub fn read_said(bytes: &[u8]) -> Option<Said> {
    let Ok(text) = str::from_utf8(bytes) else {
        return None;
    };
    let line = text.trim_end();
    match read_refused(line) {
        Some(said) => Some(said),
        None => read_unread(line),
    }
}
