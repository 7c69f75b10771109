//! Outcomes in the payload of a completed record.
ghost use Rattle.std.specs.Prelude.{◌≡◌, ◌≢◌, ◌<◌, ◌^◌, ◌↔◌, ◌⊎◌, false, IsNone};
ghost use Rattle.word_fields.specs.declared.records.RecordPhase.{RecordPhase};
ghost use Rattle.word_fields.specs.Payloads.{is_reply};
ghost use Rattle.op_record.specs.Outcomes.{FitsPayload, reply_kind_of, reply_value_of, outcome_kind, outcome_value, outcome_payload, outcome_from, outcome_of};

use lin_report::{Outcome, Reply};
use word_fields::payloads::{
    self, ABSENT, DONE, EMPTY, EXHAUSTED, NO, ReplyKind, ReplyValue, VALUE, VALUE_OF_NODE, YES,
};
use word_fields::{RecordPhase, RecordWord};

/// The kind of a reply that is given as it is.
fn kind_of(reply: Reply) -> u32
    ensures { result ≡ reply_kind_of reply }
{
    match reply {
        Reply::Yes => YES,
        Reply::No => NO,
        Reply::Done => DONE,
        Reply::Value(_) => VALUE,
        Reply::Empty => EMPTY,
        Reply::Absent => ABSENT,
        Reply::Exhausted => EXHAUSTED,
    }
}

/// Its value, and 0 where it has none.
fn value_of(reply: Reply) -> u32
    ensures { result ≡ reply_value_of reply }
{
    match reply {
        Reply::Value(value) => value,
        _ => 0,
    }
}

/// The payload of an outcome.
#[tactic(auto, unfolding(crate::specs::Outcomes::outcome_payload))]
pub fn payload_of(outcome: Outcome) -> u32
    requires { FitsPayload outcome }
    ensures payload { result ≡ outcome_payload outcome }
    ensures in_range { result < 2 ^ 24 }
{
    match outcome {
        Outcome::Plain(reply) => payloads::pack_reply(kind_of(reply), value_of(reply)),
        Outcome::ValueOf(reference) => payloads::pack_reply(VALUE_OF_NODE, reference),
    }
}

/// The outcome of a kind and a value.
fn outcome_from(kind: u32, value: u32) -> Outcome
    ensures { result ≡ outcome_from kind value }
{
    match kind {
        YES => Outcome::Plain(Reply::Yes),
        NO => Outcome::Plain(Reply::No),
        DONE => Outcome::Plain(Reply::Done),
        VALUE_OF_NODE => Outcome::ValueOf(value),
        EMPTY => Outcome::Plain(Reply::Empty),
        ABSENT => Outcome::Plain(Reply::Absent),
        EXHAUSTED => Outcome::Plain(Reply::Exhausted),
        _ => Outcome::Plain(Reply::Value(value)),
    }
}

/// The outcome of a record, where it is completed and its payload is a reply.
#[tactic(auto, unfolding(crate::specs::Outcomes::outcome_of, word_fields::specs::Payloads::reply_kind, word_fields::specs::Payloads::reply_value))]
pub fn outcome_of(word: RecordWord) -> Option<Outcome>
    ensures outcome { result ≡ outcome_of word }
    ensures none { IsNone result ↔ ((word.phase ≢ RecordPhase.Completed) ⊎ (is_reply word.payload ≡ false)) }
{
    if word.phase != RecordPhase::Completed || !payloads::is_reply(word.payload) {
        return None;
    }
    let payload = u64::from(word.payload);
    Some(outcome_from(
        ReplyKind::get(payload) as u32,
        ReplyValue::get(payload) as u32,
    ))
}
