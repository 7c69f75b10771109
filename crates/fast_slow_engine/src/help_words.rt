//! The words to which a helper exchanges a record, and what it reads from loaded words.
ghost use Rattle.std.specs.Prelude.{◌≡◌, ◌+◌, ◌<◌, ◌≤◌, ◌^◌, length};
ghost use Rattle.fast_slow_engine.specs.HelpWords.{again_word, announced_op, executing_word, fitted, named_block, stop_of, told_word, wrapping_word};

use lin_report::{Op, Outcome, Reply};
use normal_traits::List;
use op_record::complete;
use step_memory::Request;
use word_fields::payloads::{self, pack_wrapping};
use word_fields::{OpWord, RecordPhase, RecordWord, ValueWord};

/// The operation of an op word and a value word.
pub fn announced_op(op: u64, value: u64) -> Op
    ensures { result ≡ announced_op op value }
{
    let known = OpWord::unpack(op);
    Op {
        code: known.code,
        key: known.key,
        value: ValueWord::unpack(value).value,
    }
}

/// An outcome whose value or reference fits a payload.
pub fn fitted(outcome: Outcome) -> Outcome
    ensures { result ≡ fitted outcome }
{
    match outcome {
        Outcome::Plain(Reply::Value(value)) => Outcome::Plain(Reply::Value(value % (1 << 20))),
        Outcome::Plain(reply) => Outcome::Plain(reply),
        Outcome::ValueOf(reference) => Outcome::ValueOf(reference % (1 << 20)),
    }
}

/// The word that completes a word with an outcome.
pub fn told_word(word: u64, outcome: Outcome) -> u64
    ensures { result ≡ told_word word outcome }
{
    let Request::Exchange { to, .. } = complete(0, RecordWord::unpack(word), fitted(outcome)) else {
        unreachable!()
    };
    to
}

/// The word of a word whose list is executed from a block.
pub fn executing_word(word: u64, block: u32) -> u64
    requires { block < 2 ^ 17 }
    ensures { result ≡ executing_word word block }
{
    let known = RecordWord::unpack(word);
    RecordWord {
        phase: RecordPhase::Executing,
        number: known.number,
        round: known.round,
        payload: block,
    }
    .pack()
}

/// The block that a word names.
pub fn named_block(word: u64) -> u32
    ensures block { result ≡ named_block word }
    ensures small { result < 2 ^ 17 }
{
    payloads::block_of(RecordWord::unpack(word).payload)
}

/// The word of a word whose list has stopped.
pub fn wrapping_word(word: u64, stop: u32) -> u64
    requires { stop ≤ 2 }
    ensures { result ≡ wrapping_word word stop }
{
    let known = RecordWord::unpack(word);
    RecordWord {
        phase: RecordPhase::Wrapping,
        number: known.number,
        round: known.round,
        payload: pack_wrapping(named_block(word), stop),
    }
    .pack()
}

/// The word of a word whose list is made anew.
pub fn again_word(word: u64) -> u64
    ensures { result ≡ again_word word }
{
    let known = RecordWord::unpack(word);
    RecordWord {
        phase: RecordPhase::Generate,
        number: known.number,
        round: (known.round + 1) % (1 << 17),
        payload: 0,
    }
    .pack()
}

/// The place at which the list of a word stopped: at most the length.
pub fn stop_of(word: u64, list: &List) -> u32
    ensures { result ≡ stop_of word list.now.items }
{
    let stop = payloads::stop_of(RecordWord::unpack(word).payload);
    if list.len() < stop as usize {
        list.len() as u32
    } else {
        stop
    }
}
