//! What the payload of a record word holds: a block, a block and a stop, or a reply.
ghost use Rattle.std.specs.Prelude.{◌≡◌, ◌<◌, ◌≤◌, ◌^◌, ◌||◌, ◌==◌, IsTrue};
ghost use Rattle.word_fields.specs.Payloads;
ghost use Rattle.word_fields.specs.Payloads.{payload_block, payload_stop, wrapping_payload, reply_kind, reply_value, reply_payload};

use crate::field::Field;

/// The block whose list is tried, or has stopped.
pub type PayloadBlock = Field<0, 17>;
/// The place where the list has stopped: that of the first entry that failed, or the list's length.
pub type PayloadStop = Field<17, 2>;

/// The kind of a reply.
pub type ReplyKind = Field<0, 3>;
/// Its value, or the reference of the node that has it.
pub type ReplyValue = Field<3, 20>;
/// The bit that no reply has.
pub type ReplyRest = Field<23, 1>;

/// The kind of the reply yes.
pub const YES: u32 = 0;
/// The kind of the reply no.
pub const NO: u32 = 1;
/// The kind of the reply done.
pub const DONE: u32 = 2;
/// The kind of the reply that is the value of a node, whose reference stands beside it.
pub const VALUE_OF_NODE: u32 = 3;
/// The kind of the reply empty.
pub const EMPTY: u32 = 4;
/// The kind of the reply absent.
pub const ABSENT: u32 = 5;
/// The kind of the reply exhausted.
pub const EXHAUSTED: u32 = 6;
/// The kind of the reply that is the value beside it.
pub const VALUE: u32 = 7;

/// The payload of Wrapping: a block, and the place where its list has stopped.
#[tactic(auto, unfolding(crate::specs::Payloads::wrapping_payload, crate::specs::Payloads::payload_block, crate::specs::Payloads::payload_stop, crate::specs::Fields::field_of, crate::specs::Fields::with_field))]
pub fn pack_wrapping(block: u32, stop: u32) -> u32
    requires block_in_range { block < 2 ^ 17 }
    requires stop_in_range { stop ≤ 2 }
    ensures payload { result ≡ wrapping_payload block stop }
    ensures block { payload_block result ≡ block }
    ensures stop { payload_stop result ≡ stop }
    ensures in_range { result < 2 ^ 19 }
{
    PayloadStop::put(PayloadBlock::put(0, u64::from(block)), u64::from(stop)) as u32
}

/// The block of a payload.
#[tactic(auto, unfolding(crate::specs::Payloads::payload_block))]
pub fn block_of(payload: u32) -> u32
    ensures block { result ≡ payload_block payload }
    ensures in_range { result < 2 ^ 17 }
{
    PayloadBlock::get(u64::from(payload)) as u32
}

/// The stop of a payload.
#[tactic(auto, unfolding(crate::specs::Payloads::payload_stop))]
pub fn stop_of(payload: u32) -> u32
    ensures stop { result ≡ payload_stop payload }
    ensures in_range { result < 2 ^ 2 }
{
    PayloadStop::get(u64::from(payload)) as u32
}

/// Whether a reply of this kind has a value or a reference.
fn has_value(kind: u64) -> bool
    ensures { result ≡ Payloads.has_value kind }
{
    kind == u64::from(VALUE_OF_NODE) || kind == u64::from(VALUE)
}

/// Whether a payload is a reply: a value stands only where the kind has one, and bit 23 is 0.
#[tactic(auto, unfolding(crate::specs::Payloads::is_reply, crate::specs::Payloads::reply_kind, crate::specs::Payloads::reply_value))]
pub fn is_reply(payload: u32) -> bool
    ensures { result ≡ Payloads.is_reply payload }
{
    let payload = u64::from(payload);
    (has_value(ReplyKind::get(payload)) || ReplyValue::get(payload) == 0)
        && ReplyRest::get(payload) == 0
}

/// The payload of a reply.
#[tactic(auto, unfolding(crate::specs::Payloads::is_reply, crate::specs::Payloads::reply_payload, crate::specs::Payloads::reply_kind, crate::specs::Payloads::reply_value, crate::specs::Fields::field_of, crate::specs::Fields::with_field))]
pub fn pack_reply(kind: u32, value: u32) -> u32
    requires kind_in_range { kind < 8 }
    requires value_in_range { value < 2 ^ 20 }
    requires value_of_kind { IsTrue (Payloads.has_value kind || (value == 0)) }
    ensures payload { result ≡ reply_payload kind value }
    ensures kind { reply_kind result ≡ kind }
    ensures value { reply_value result ≡ value }
    ensures reply { IsTrue (Payloads.is_reply result) }
    ensures in_range { result < 2 ^ 23 }
{
    ReplyValue::put(ReplyKind::put(0, u64::from(kind)), u64::from(value)) as u32
}
