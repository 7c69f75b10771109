//! The fields of a line: words with one space behind each.
ghost use Rattle.std.specs.Prelude.{◌≡◌, ◌==◌, ◌≤◌, length};
ghost use Rattle.std.specs.List.{position_or_len};
ghost use Rattle.report_check.specs.CallLines.{AsOption, cut_at, word_at, line_at, plain_number, number_at};

use script_reader::number_up_to;

/// How many bytes stand before the first mark.
fn len_before(mark: u8, bytes: &[u8]) -> usize
    ensures len { result ≡ position_or_len (λ b. b == mark) bytes.now }
    ensures within { result ≤ length bytes.now }
{
    bytes.iter().take_while(|byte| **byte != mark).count()
}

/// What stands before the first mark, and what stands behind it.
fn cut_at(mark: u8, bytes: &[u8]) -> Option<(&[u8], &[u8])>
    ensures { AsOption (λ w. (w.0.now, w.1.now)) result (cut_at (λ b. b == mark) bytes.now) }
{
    let (front, rest) = bytes.split_at(len_before(mark, bytes));
    match rest {
        [] => None,
        [_, after @ ..] => Some((front, after)),
    }
}

/// The word before the first space, and what stands behind that space.
pub(crate) fn word_at(bytes: &[u8]) -> Option<(&[u8], &[u8])>
    ensures { AsOption (λ w. (w.0.now, w.1.now)) result (word_at bytes.now) }
{
    cut_at(b' ', bytes)
}

/// The first line, without its newline, and what stands behind that. Bytes without a newline are no line.
pub(crate) fn line_at(bytes: &[u8]) -> Option<(&[u8], &[u8])>
    ensures { AsOption (λ w. (w.0.now, w.1.now)) result (line_at bytes.now) }
{
    cut_at(b'\n', bytes)
}

/// The number that a word writes without leading zeros, where it is at most this.
pub(crate) fn plain_number(most: u32, word: &[u8]) -> Option<u32>
    ensures { result ≡ plain_number most word.now }
{
    match word {
        [] | [b'0', _, ..] => None,
        _ => number_up_to(most, word),
    }
}

/// The number of a field, and what stands behind it.
pub(crate) fn number_at(most: u32, bytes: &[u8]) -> Option<(u32, &[u8])>
    ensures { AsOption (λ n. (n.0, n.1.now)) result (number_at most bytes.now) }
{
    let (word, rest) = word_at(bytes)?;
    Some((plain_number(most, word)?, rest))
}
