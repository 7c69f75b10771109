//! The words of the tables are those of the layouts.
use crate::list_rows::{ADD_1, DEL_2, LEADS, MARKED, UNLINKED};
use crate::queue_rows::{PUT_1, SEVEN_1, TAKE_2, TAKE_3};
use crate::words::{
    BIT, DONE_1, EMPTY_3, EXECUTING_1, EXECUTING_1_IN_2, EXECUTING_2, EXHAUSTED_1, EXHAUSTED_2,
    GENERATE_1, GENERATE_2, GENERATE_3, NODE_OF_1, NODE_OF_2, NODE_OF_3, NODE_OF_4, QUEUE_1,
    QUEUE_2, QUEUE_3, QUEUE_4, QUEUE_5, QUEUE_6, QUEUE_OF_EIGHT, VALUE_2, WRAPPING_1,
    WRAPPING_1_IN_2, WRAPPING_2, WRAPPING_2_BOTH, YES_1, YES_2,
};
use lin_report::{Outcome, Reply};
use op_record::outcome_of;
use word_fields::owners::pack_owner;
use word_fields::payloads::pack_wrapping;
use word_fields::{OpWord, QueueWord, RecordPhase, RecordWord, ValueWord, VersionedWord};

#[test]
fn records_name_their_phase_call_and_block(rt: HostRuntime) {
    for (word, phase, number, payload) in [
        (GENERATE_1, RecordPhase::Generate, 1, 0),
        (EXECUTING_1, RecordPhase::Executing, 1, 1),
        (EXECUTING_1_IN_2, RecordPhase::Executing, 1, 2),
        (WRAPPING_1, RecordPhase::Wrapping, 1, pack_wrapping(1, 1)),
        (
            WRAPPING_1_IN_2,
            RecordPhase::Wrapping,
            1,
            pack_wrapping(2, 1),
        ),
        (GENERATE_2, RecordPhase::Generate, 2, 0),
        (EXECUTING_2, RecordPhase::Executing, 2, 2),
        (WRAPPING_2, RecordPhase::Wrapping, 2, pack_wrapping(2, 1)),
        (
            WRAPPING_2_BOTH,
            RecordPhase::Wrapping,
            2,
            pack_wrapping(2, 2),
        ),
        (GENERATE_3, RecordPhase::Generate, 3, 0),
    ] {
        let record = RecordWord::unpack(word);
        assert!(rt; record.phase == phase && record.number == number && record.round == 0);
        assert_eq!(rt; record.payload, payload);
        assert_eq!(rt; record.pack(), word);
    }
}

#[test]
fn completed_records_tell_their_outcome(rt: HostRuntime) {
    for (word, number, outcome) in [
        (DONE_1, 1, Outcome::Plain(Reply::Done)),
        (YES_1, 1, Outcome::Plain(Reply::Yes)),
        (EXHAUSTED_1, 1, Outcome::Plain(Reply::Exhausted)),
        (VALUE_2, 2, Outcome::ValueOf(5)),
        (YES_2, 2, Outcome::Plain(Reply::Yes)),
        (EXHAUSTED_2, 2, Outcome::Plain(Reply::Exhausted)),
        (EMPTY_3, 3, Outcome::Plain(Reply::Empty)),
    ] {
        let record = RecordWord::unpack(word);
        assert!(rt; record.number == number && record.round == 0 && record.pack() == word);
        assert_eq!(rt; outcome_of(record), Some(outcome));
    }
}

#[test]
fn versioned_words_name_their_value(rt: HostRuntime) {
    for (word, value, modified, version) in [
        (NODE_OF_1, 5, false, 1),
        (NODE_OF_1 + BIT, 5, true, 1),
        (NODE_OF_2, 9, false, 1),
        (NODE_OF_3, 13, false, 1),
        (NODE_OF_4, 17, false, 1),
        (LEADS, 10, false, 1),
        (MARKED, 1, false, 1),
        (UNLINKED, 0, false, 2),
    ] {
        let known = VersionedWord::unpack(word);
        assert!(rt; known.value == value && known.modified == modified && known.version == version);
        assert_eq!(rt; known.pack(), word);
    }
}

#[test]
fn queue_words_name_their_seats(rt: HostRuntime) {
    for (word, seats, version) in [
        (QUEUE_1, [0].as_slice(), 1),
        (QUEUE_2, [].as_slice(), 2),
        (QUEUE_3, [0].as_slice(), 3),
        (QUEUE_4, [].as_slice(), 4),
        (QUEUE_5, [0].as_slice(), 5),
        (QUEUE_6, [].as_slice(), 6),
        (QUEUE_OF_EIGHT, [0, 1, 2, 3, 4, 5, 6, 7].as_slice(), 1),
    ] {
        let queue = QueueWord::unpack(word);
        assert_eq!(rt; queue.seats.as_slice(), seats);
        assert!(rt; queue.version == version && queue.pack() == word);
    }
}

#[test]
fn announced_words_tell_their_call(rt: HostRuntime) {
    for (word, code, number, key) in [
        (PUT_1, 1, 1, 0),
        (TAKE_2, 2, 2, 0),
        (TAKE_3, 2, 3, 0),
        (ADD_1, 3, 1, 5),
        (DEL_2, 4, 2, 5),
    ] {
        let op = OpWord::unpack(word);
        assert!(rt; op.code == code && op.number == number && op.key == key && op.pack() == word);
    }
    let value = ValueWord::unpack(SEVEN_1);
    assert!(rt; value.number == 1 && value.value == 7 && value.pack() == SEVEN_1);
    for (owner, seat, number) in [(8, 0, 1), (9, 1, 1), (16, 0, 2)] {
        assert_eq!(rt; pack_owner(seat, number), owner);
    }
}
