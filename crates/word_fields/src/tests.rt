//! Each field of each layout at its bounds, and the words of worked examples.
use crate::announced::{AnnouncedValue, OpCode, OpKey, OpNumber, OpWord, ValueNumber, ValueWord};
use crate::owners::{OwnerNumber, OwnerSeat, pack_owner};
use crate::payloads::{
    DONE, PayloadBlock, PayloadStop, ReplyKind, ReplyRest, ReplyValue, pack_reply,
};
use crate::queues::{QueuePlace, QueueVersion, QueueWord};
use crate::records::{
    PhaseNumber, RecordNumber, RecordPayload, RecordPhase, RecordRound, RecordWord,
};
use crate::versioned::{VersionedBit, VersionedValue, VersionedVersion, VersionedWord};
use std::process::Abort;

/// What a case of the boundary table put and found.
#[derive(Clone, Copy)]
struct Case {
    value: u64,
    read: u64,
    others: u64,
    around: u64,
}

/// What was put is read back, and the other bits are what they were.
fn check(rt: &impl Abort, case: Case) {
    assert_eq!(rt; case.read, case.value);
    assert_eq!(rt; case.others, case.around);
}

/// For each field, given by its lowest bit and its width: its least value, its greatest, and its
/// greatest with all other bits set.
macro_rules! boundaries {
    ($rt:ident; $($field:ty, $at:literal, $width:literal;)*) => {
        $(
            let greatest: u64 = u64::MAX >> (64 - $width);
            let others: u64 = !(greatest << $at);
            boundaries!(@case $rt, $field, others, 0, 0);
            boundaries!(@case $rt, $field, others, 0, greatest);
            boundaries!(@case $rt, $field, others, others, greatest);
        )*
    };
    (@case $rt:ident, $field:ty, $others:expr, $around:expr, $value:expr) => {
        let word = <$field>::put($around, $value);
        check(&$rt, Case {
            value: $value,
            read: <$field>::get(word),
            others: word & $others,
            around: $around,
        });
    };
}

#[test]
fn versioned_fields_keep_apart(rt: HostRuntime) {
    boundaries! { rt; VersionedValue, 0, 24; VersionedBit, 24, 1; VersionedVersion, 25, 39; }
}

#[test]
fn record_fields_keep_apart(rt: HostRuntime) {
    boundaries! { rt; PhaseNumber, 0, 3; RecordNumber, 3, 16; RecordRound, 19, 17; RecordPayload, 36, 24; }
}

#[test]
fn queue_fields_keep_apart(rt: HostRuntime) {
    boundaries! { rt; QueuePlace, 0, 4; QueueVersion, 32, 32; }
}

#[test]
fn announced_fields_keep_apart(rt: HostRuntime) {
    boundaries! { rt; OpCode, 0, 4; OpNumber, 4, 16; OpKey, 20, 20; ValueNumber, 0, 16; AnnouncedValue, 16, 32; }
}

#[test]
fn owner_and_payload_fields_keep_apart(rt: HostRuntime) {
    boundaries! { rt; OwnerSeat, 0, 3; OwnerNumber, 3, 16; PayloadBlock, 0, 17; PayloadStop, 17, 2; ReplyKind, 0, 3; ReplyValue, 3, 20; ReplyRest, 23, 1; }
}

#[test]
fn worked_versioned_words_are_packed_and_read(rt: HostRuntime) {
    let dummy = VersionedWord {
        value: 1,
        modified: false,
        version: 0,
    };
    let linked = dummy.changed(5);
    for (word, fields) in [
        (1, dummy),
        (16_777_217, dummy.marked()),
        (33_554_437, linked),
    ] {
        assert_eq!(rt; fields.pack(), word);
        assert_eq!(rt; VersionedWord::unpack(word), fields);
        assert_eq!(rt; fields.marked().cleared(), fields.cleared());
    }
    assert_eq!(rt; VersionedWord::unpack(16_777_217).cleared(), dummy);
}

#[test]
fn worked_record_words_are_packed_and_read(rt: HostRuntime) {
    let done = pack_reply(DONE, 0);
    for (word, phase, payload, again) in [
        (9, RecordPhase::Generate, 0, 9),
        (68_719_476_746, RecordPhase::Executing, 1, 68_719_476_746),
        (
            137_438_953_484,
            RecordPhase::Completed,
            done,
            137_438_953_484,
        ),
        (15, RecordPhase::Idle, 0, 8),
    ] {
        let fields = RecordWord::unpack(word);
        assert_eq!(rt; (fields.phase, fields.payload), (phase, payload));
        assert_eq!(rt; (fields.number, fields.round, fields.pack()), (1, 0, again));
    }
}

#[test]
fn worked_op_and_value_words_are_packed_and_read(rt: HostRuntime) {
    let op = OpWord {
        code: 1,
        number: 1,
        key: 0,
    };
    let value = ValueWord {
        number: 1,
        value: 7,
    };
    assert_eq!(rt;
        (op.pack(), value.pack(), pack_owner(0, 1)),
        (17, 458_753, 8)
    );
    assert_eq!(rt;
        (OpWord::unpack(17), ValueWord::unpack(458_753)),
        (op, value)
    );
}

#[test]
fn worked_queue_words_are_read_and_packed(rt: HostRuntime) {
    let alone = QueueWord::unpack(4_294_967_297);
    assert_eq!(rt; alone.seats.as_slice(), [0].as_slice());
    assert_eq!(rt; (alone.version, alone.pack()), (1, 4_294_967_297));
    for (word, seats) in [
        (0, [].as_slice()),
        (0x8765_4321, [0, 1, 2, 3, 4, 5, 6, 7].as_slice()),
        (0x0000_0121, [0, 1].as_slice()),
        (0x0000_0193, [2].as_slice()),
        (0x0000_2041, [0, 3].as_slice()),
    ] {
        assert_eq!(rt; QueueWord::unpack(word).seats.as_slice(), seats);
    }
}
