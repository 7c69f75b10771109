//! The line of a call in a report.
ghost use Rattle.std.specs.Prelude.{◌≡◌};
ghost use Rattle.std.specs.Option.{option_map};
ghost use Rattle.std.specs.Str.{bytes_eq};
ghost use Rattle.lin_report.specs.Commands.{may_answer};
ghost use Rattle.report_check.specs.CallLines.{AsOption, op_at, command_at, reply_of, reply_named, reply_at, answer_at, path_of, fits, call_at, call_of, TellsCall};

use crate::fields::{number_at, word_at};
use lin_report::calls::{ADD, DEL, GET, HAS, MIN, PEEK, PUT, REM, SET, TAKE};
use lin_report::{Client, Op, Path, Reply};
use script_reader::scripts::{Numbers, command_named};

/// The greatest key.
const MAX_KEY: u32 = 1_048_575;
/// The greatest tick.
const MAX_TICK: u32 = 1_048_575;
/// The greatest seat.
const MAX_SEAT: u32 = 7;
/// The greatest number of a call.
const MAX_NUMBER: u32 = 65_535;

/// What a line tells of a call. A pending call has no answer, and else it is the reply and the end tick.
#[derive(Clone, Copy, Debug, PartialEq, Eq)]
pub struct CallLine {
    pub seat: u32,
    pub number: u32,
    pub op: Op,
    pub answer: Option<(Reply, u64)>,
    pub begin: u64,
    pub path: Path,
}

/// An operation with its numbers, and what stands behind them.
fn op_at(code: u8, numbers: Numbers, bytes: &[u8]) -> Option<(Op, &[u8])>
    ensures { AsOption (λ x. (x.0, x.1.now)) result (op_at code numbers bytes.now) }
{
    match numbers {
        Numbers::NoNumber => Some((
            Op {
                code,
                key: 0,
                value: 0,
            },
            bytes,
        )),
        Numbers::OneValue => {
            let (value, rest) = number_at(u32::MAX, bytes)?;
            Some((
                Op {
                    code,
                    key: 0,
                    value,
                },
                rest,
            ))
        }
        Numbers::OneKey => {
            let (key, rest) = number_at(MAX_KEY, bytes)?;
            Some((
                Op {
                    code,
                    key,
                    value: 0,
                },
                rest,
            ))
        }
        Numbers::KeyAndValue => {
            let (key, rest) = number_at(MAX_KEY, bytes)?;
            let (value, rest) = number_at(u32::MAX, rest)?;
            Some((Op { code, key, value }, rest))
        }
    }
}

/// A command of the client, and what stands behind it.
fn command_at(client: Client, bytes: &[u8]) -> Option<(Op, &[u8])>
    ensures { AsOption (λ x. (x.0, x.1.now)) result (command_at client bytes.now) }
{
    let (word, rest) = word_at(bytes)?;
    let (code, numbers) = command_named(client, word)?;
    op_at(code, numbers, rest)
}

/// Whether a word is this text.
fn is_text(word: &[u8], text: &[u8]) -> bool
    ensures { result ≡ bytes_eq word.now text.now }
{
    word == text
}

/// The reply that a word names, if it has no value.
fn reply_of(word: &[u8]) -> Option<Reply>
    ensures { result ≡ reply_of word.now }
{
    if is_text(word, b"yes") {
        Some(Reply::Yes)
    } else if is_text(word, b"no") {
        Some(Reply::No)
    } else if is_text(word, b"done") {
        Some(Reply::Done)
    } else if is_text(word, b"empty") {
        Some(Reply::Empty)
    } else if is_text(word, b"absent") {
        Some(Reply::Absent)
    } else if is_text(word, b"exhausted") {
        Some(Reply::Exhausted)
    } else {
        None
    }
}

/// The reply that a word names, or that the call is pending, and what stands behind its value.
fn reply_named<'a>(word: &[u8], bytes: &'a [u8]) -> Option<(Option<Reply>, &'a [u8])>
    ensures { AsOption (λ x. (x.0, x.1.now)) result (reply_named word.now bytes.now) }
{
    if is_text(word, b"pending") {
        return Some((None, bytes));
    }
    if is_text(word, b"value") {
        let (value, rest) = number_at(u32::MAX, bytes)?;
        return Some((Some(Reply::Value(value)), rest));
    }
    let reply = reply_of(word)?;
    Some((Some(reply), bytes))
}

/// The reply of a call, or that it is pending, and what stands behind it.
fn reply_at(bytes: &[u8]) -> Option<(Option<Reply>, &[u8])>
    ensures { AsOption (λ x. (x.0, x.1.now)) result (reply_at bytes.now) }
{
    let (word, rest) = word_at(bytes)?;
    reply_named(word, rest)
}

/// The answer of a call, from its reply and its end, and what stands behind that.
fn answer_at(reply: Option<Reply>, bytes: &[u8]) -> Option<(Option<(Reply, u64)>, &[u8])>
    ensures { AsOption (λ x. (x.0, x.1.now)) result (answer_at reply bytes.now) }
{
    let Some(reply) = reply else {
        let (word, rest) = word_at(bytes)?;
        if is_text(word, b"-") {
            return Some((None, rest));
        }
        return None;
    };
    let (end, rest) = number_at(MAX_TICK, bytes)?;
    Some((Some((reply, u64::from(end))), rest))
}

/// The path that a word names.
fn path_of(word: &[u8]) -> Option<Path>
    ensures { result ≡ path_of word.now }
{
    if is_text(word, b"fast") {
        Some(Path::Fast)
    } else if is_text(word, b"slow") {
        Some(Path::Slow)
    } else {
        None
    }
}

/// Whether a command may be given the reply.
fn may_answer(op: Op, reply: Reply) -> bool
    ensures { result ≡ may_answer op reply }
{
    match reply {
        Reply::Yes | Reply::No => {
            op.code == ADD || op.code == DEL || op.code == HAS || op.code == SET || op.code == REM
        }
        Reply::Done => op.code == PUT,
        Reply::Value(_) => {
            op.code == TAKE || op.code == GET || op.code == PEEK || op.code == MIN
        }
        Reply::Empty => op.code == TAKE || op.code == PEEK || op.code == MIN,
        Reply::Absent => op.code == GET,
        Reply::Exhausted => {
            !(op.code == HAS || op.code == GET || op.code == PEEK || op.code == MIN)
        }
    }
}

/// Whether a command may be given the reply, or be pending.
fn fits(op: Op, reply: Option<Reply>) -> bool
    ensures { result ≡ fits op reply }
{
    match reply {
        Some(reply) => may_answer(op, reply),
        None => true,
    }
}

/// The call that a line tells, by its fields.
#[tactic(auto, unfolding(crate::specs::CallLines::call_at))]
fn call_at(client: Client, bytes: &[u8]) -> Option<CallLine>
    ensures { AsOption call_of result (call_at client bytes.now) }
{
    let (seat, rest) = number_at(MAX_SEAT, bytes)?;
    let (number, rest) = number_at(MAX_NUMBER, rest)?;
    let (op, rest) = command_at(client, rest)?;
    let (reply, rest) = reply_at(rest)?;
    let (begin, rest) = number_at(MAX_TICK, rest)?;
    let (answer, rest) = answer_at(reply, rest)?;
    let path = path_of(rest)?;
    if number == 0 || !fits(op, reply) {
        return None;
    }
    Some(CallLine {
        seat,
        number,
        op,
        answer,
        begin: u64::from(begin),
        path,
    })
}

/// The call of the client whose line in a report this is, without its newline, if it is one.
pub fn read_call_line(client: Client, line: &[u8]) -> Option<CallLine>
    ensures { TellsCall client line.now (option_map call_of result) }
{
    call_at(client, line)
}
