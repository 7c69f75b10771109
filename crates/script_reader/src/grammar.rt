//! What command files, schedules and other files of words have in common: their lines, judged in order.
ghost use Rattle.std.specs.Prelude.{◌≡◌, ◌<◌, ◌≤◌, ◌^◌, ◌∷◌, ℕ, List, Result, length};
ghost use Rattle.std.specs.List.{position_or_len};
ghost use Rattle.script_reader.specs.Words.{is_newline, lines_of};
ghost use Rattle.script_reader.specs.Outcomes.{line_outcome, lines_outcome, outcome_within, ReadsAs};

use crate::causes::{Cause, Refusal, ScriptFault};
use crate::words::{Words, words_in};
use std::alloc::Global;

/// What the lines with words of a file may be, and how many there may be.
pub trait Grammar {
    ghost use Rattle.script_reader.specs.declared.causes.Cause.{Cause};
    ghost use Rattle.script_reader.specs.WordList.{AreWords};

    /// What a line with words stands for.
    type Entry: Drop;

    /// What the words of a line stand for, or why they are refused.
    ghost entry_of: { Self → List (List ℕ) → Result Self.Entry Cause };

    /// How many lines may have words.
    ghost limit: { ℕ };

    /// How many bytes a file may have.
    ghost most: { ℕ };

    fn limit(&self) -> usize
        ensures { result ≡ limit };

    fn max_bytes(&self) -> u32
        ensures { result ≡ most };

    fn entry(&self, words: Words<'_>) -> Result<Self::Entry, Cause>
        ensures { (list : List (List ℕ)) → AreWords words.entry list → result ≡ entry_of self.now list };
}

/// The most bytes of a command file or a schedule.
pub const MAX_BYTES: u32 = 1_048_576;
/// The most bytes of a line, without its newline.
const MAX_LINE: usize = 64;

/// What one line is, where so many lines with words stand before it.
fn judge_line<G: Grammar>(
    grammar: &G,
    before: usize,
    line: &[u8],
) -> Result<Option<G::Entry>, Cause>
    ensures { result ≡ line_outcome (G.entry_of grammar.now) G.limit before line.now }
{
    if line.len() > MAX_LINE {
        return Err(Cause::LineTooLong);
    }
    let words = words_in(line);
    if let Words::None = words {
        return Ok(None);
    }
    if before >= grammar.limit() {
        return Err(Cause::TooManyLines);
    }
    Ok(Some(grammar.entry(words)?))
}

/// How many bytes stand before the first newline.
fn line_len(bytes: &[u8]) -> usize
    ensures len { result ≡ position_or_len is_newline bytes.now }
    ensures within { result ≤ length bytes.now }
{
    bytes.iter().take_while(|byte| **byte != b'\n').count()
}

/// The first line, without its newline, and what stands behind that.
#[tactic(auto, using(crate::proofs::LinesOf::first_line_is))]
fn first_line(bytes: &[u8]) -> (&[u8], &[u8])
    requires { 0 < length bytes.now }
    ensures lines { lines_of bytes.now ≡ result.0.now ∷ lines_of result.1.now }
    ensures shorter { length result.1.now < length bytes.now }
{
    let (line, rest) = bytes.split_at(line_len(bytes));
    match rest {
        [] => (line, rest),
        [_, after @ ..] => (line, after),
    }
}

/// What lines are, from line 1 on.
fn read_lines<G: Grammar>(
    alloc: Global,
    grammar: &G,
    bytes: &[u8],
) -> Result<Vec<G::Entry>, ScriptFault>
    requires { length bytes.now < 2 ^ 32 }
    ensures { ReadsAs result (lines_outcome (G.entry_of grammar.now) G.limit 1 0 (lines_of bytes.now)) }
{
    let mut entries = Vec::new(alloc);
    let mut number = 0;
    let mut rest = bytes;
    while !rest.is_empty() {
        let (line, after) = first_line(rest);
        rest = after;
        number += 1;
        match judge_line(grammar, entries.len(), line) {
            Ok(None) => {}
            Ok(Some(entry)) => entries.push(entry)?,
            Err(cause) => return Err(ScriptFault::Refused(Refusal {
                line: number,
                cause,
            })),
        }
    }
    Ok(entries)
}

/// What a file is.
pub fn read_file<G: Grammar>(
    alloc: Global,
    grammar: &G,
    bytes: &[u8],
) -> Result<Vec<G::Entry>, ScriptFault>
    ensures { ReadsAs result (outcome_within G.most (G.entry_of grammar.now) G.limit bytes.now) }
{
    if bytes.len() > grammar.max_bytes() as usize {
        return Err(ScriptFault::Refused(Refusal {
            line: 0,
            cause: Cause::FileTooLong,
        }));
    }
    read_lines(alloc, grammar, bytes)
}
