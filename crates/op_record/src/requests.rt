//! The steps on the words of a seat.
ghost use Rattle.std.specs.Prelude.{◌≡◌, ◌≢◌, ℕ, ◌<◌, ◌≤◌, ◌^◌, Some};
ghost use Rattle.step_memory.specs.declared.steps.Request.{Request};
ghost use Rattle.word_fields.specs.declared.records.RecordPhase.{RecordPhase};
ghost use Rattle.word_fields.specs.Announced.{op_word, value_word};
ghost use Rattle.word_fields.specs.Records.{record_word, record_number, packed_record, record_of};
ghost use Rattle.node_arena.specs.MemoryMap.{op_place, value_place, record_place};
ghost use Rattle.op_record.specs.Outcomes.{FitsPayload, outcome_of, completed_word};
ghost use Rattle.op_record.specs.Progress.{IsEarlier, GoesOn, GoesOnWhereWon};

use crate::outcomes::payload_of;
use lin_report::{Op, Outcome};
use node_arena::{op_place, record_place, value_place};
use step_memory::Request;
use word_fields::{OpWord, RecordPhase, RecordWord, ValueWord};

/// The store of the op word of call NUMBER.
pub fn announce_op(seat: u32, number: u16, op: Op) -> Request
    requires seat { seat < 8 }
    requires number { 1 ≤ number }
    requires code { op.code < 2 ^ 4 }
    requires key { op.key < 2 ^ 20 }
    ensures { result ≡ Request.Store (op_place seat) (op_word op.code number op.key) }
{
    let word = OpWord {
        code: op.code,
        number,
        key: op.key,
    };
    Request::Store {
        at: op_place(seat),
        value: word.pack(),
    }
}

/// The store of the value word of call NUMBER.
pub fn announce_value(seat: u32, number: u16, value: u32) -> Request
    requires seat { seat < 8 }
    requires number { 1 ≤ number }
    ensures { result ≡ Request.Store (value_place seat) (value_word number value) }
{
    let word = ValueWord { number, value };
    Request::Store {
        at: value_place(seat),
        value: word.pack(),
    }
}

/// The store of the record word of call NUMBER: its list is to be made.
#[tactic(auto, using(word_fields::proofs::RecordWords::record_words))]
pub fn announce(seat: u32, number: u16) -> Request
    requires seat { seat < 8 }
    requires number { 1 ≤ number }
    ensures request { result ≡ Request.Store (record_place seat) (record_word RecordPhase.Generate number 0 0) }
    ensures later { (word : ℕ) → record_number word < number → GoesOn result word }
{
    let word = RecordWord {
        phase: RecordPhase::Generate,
        number,
        round: 0,
        payload: 0,
    };
    Request::Store {
        at: record_place(seat),
        value: word.pack(),
    }
}

/// The exchange of the record word.
pub fn advance(seat: u32, from: RecordWord, to: RecordWord) -> Request
    requires { seat < 8 }
    ensures request { result ≡ Request.Exchange (record_place seat) (packed_record from) (packed_record to) }
    ensures later { IsEarlier from to → GoesOnWhereWon result }
{
    Request::Exchange {
        at: record_place(seat),
        from: from.pack(),
        to: to.pack(),
    }
}

/// The exchange of the record word that completes the call with an outcome.
#[tactic(auto, using(word_fields::proofs::RecordWords::record_words))]
pub fn complete(seat: u32, from: RecordWord, outcome: Outcome) -> Request
    requires seat { seat < 8 }
    requires fits { FitsPayload outcome }
    ensures request { result ≡ Request.Exchange (record_place seat) (packed_record from) (completed_word from outcome) }
    ensures later { from.phase ≢ RecordPhase.Completed → GoesOnWhereWon result }
    ensures tells { outcome_of (record_of (completed_word from outcome)) ≡ Some outcome }
{
    let to = RecordWord {
        phase: RecordPhase::Completed,
        number: from.number,
        round: from.round,
        payload: payload_of(outcome),
    };
    Request::Exchange {
        at: record_place(seat),
        from: from.pack(),
        to: to.pack(),
    }
}
