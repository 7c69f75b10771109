//! What an editor doesn't show of a line at fault.
ghost use Rattle.std.specs.Prelude.{◌≡◌, None, Some, Contains};

/// What is on a line that a person doesn't see.
#[derive(Clone, Copy, Debug, PartialEq, Eq)]
pub enum Unseen {
    /// The file begins with a byte-order mark.
    ByteOrderMark,
    /// The line ends with a carriage return.
    CarriageReturn,
    /// A tab stands on the line.
    Tab,
    /// A byte that is no ASCII character stands on the line.
    NotAscii,
}

/// The byte-order marks of UTF-8 and of both orders of UTF-16.
const MARKS: [&[u8]; 3] = [b"\xef\xbb\xbf", b"\xff\xfe", b"\xfe\xff"];

/// The line of this number, counted from 1, without its newline.
pub fn line_numbered(bytes: &[u8], number: u32) -> Option<&[u8]> {
    if number == 0 {
        return None;
    }
    bytes.split(|byte| *byte == b'\n').nth(number as usize - 1)
}

/// What a person doesn't see on the line of this number.
pub fn unseen_in(number: u32, line: &[u8]) -> Option<Unseen>
    // A mark is one of the whole file, so it is told of its first line alone; a tab is told where one is, and never
    // passed over where nothing else is told.
    ensures mark { result ≡ Some Unseen.ByteOrderMark → number ≡ 1 }
    ensures tab { result ≡ Some Unseen.Tab → Contains line.now 9 }
    ensures plain { result ≡ None → ¬ Contains line.now 9 }
{
    if number == 1 && MARKS.iter().any(|mark| line.starts_with(mark)) {
        Some(Unseen::ByteOrderMark)
    } else if line.ends_with(b"\r") {
        Some(Unseen::CarriageReturn)
    } else if line.contains(&b'\t') {
        Some(Unseen::Tab)
    } else if !line.is_ascii() {
        Some(Unseen::NotAscii)
    } else {
        None
    }
}

impl Unseen {
    /// What it is and what to do.
    pub fn text(self) -> &'static str {
        match self {
            Unseen::ByteOrderMark => {
                "the file begins with a byte-order mark: save it as plain ASCII, without a mark"
            }
            Unseen::CarriageReturn => {
                "the line ends with a carriage return (CRLF line ends): lines end with a newline byte alone"
            }
            Unseen::Tab => "a tab stands on the line: words are separated by spaces alone",
            Unseen::NotAscii => "a byte that is no ASCII character stands on the line",
        }
    }
}
