//! The steps of one call, by worked words.
use crate::{advance, announce, announce_op, announce_value, complete, earlier, outcome_of};
use lin_report::{Op, Outcome, Reply};
use step_memory::Request;
use word_fields::RecordWord;

#[test]
fn a_call_is_announced_and_completed(rt: HostRuntime) {
    let put = Op {
        code: 1,
        key: 0,
        value: 7,
    };
    assert_eq!(rt;
        announce_value(0, 1, put.value),
        Request::Store {
            at: 24,
            value: 458_753
        }
    );
    assert_eq!(rt; announce_op(0, 1, put), Request::Store { at: 4, value: 17 });
    assert_eq!(rt; announce(0, 1), Request::Store { at: 12, value: 9 });
    let announced = RecordWord::unpack(9);
    let executing = RecordWord::unpack(68_719_476_746);
    let tried = Request::Exchange {
        at: 12,
        from: 9,
        to: 68_719_476_746,
    };
    assert_eq!(rt; advance(0, announced, executing), tried);
    let done = Request::Exchange {
        at: 12,
        from: 68_719_476_746,
        to: 137_438_953_484,
    };
    assert_eq!(rt; complete(0, executing, Outcome::Plain(Reply::Done)), done);
    let completed = RecordWord::unpack(137_438_953_484);
    assert_eq!(rt; outcome_of(completed), Some(Outcome::Plain(Reply::Done)));
    assert_eq!(rt; outcome_of(executing), None);
    assert!(rt; earlier(announced, executing) && earlier(executing, completed));
    assert!(rt; !earlier(completed, announced));
}

#[test]
fn outcomes_are_told_by_their_kinds(rt: HostRuntime) {
    for (payload, outcome) in [
        (0, Some(Outcome::Plain(Reply::Yes))),
        (1, Some(Outcome::Plain(Reply::No))),
        (2, Some(Outcome::Plain(Reply::Done))),
        (3 + 8 * 1_048_575, Some(Outcome::ValueOf(1_048_575))),
        (4, Some(Outcome::Plain(Reply::Empty))),
        (5, Some(Outcome::Plain(Reply::Absent))),
        (6, Some(Outcome::Plain(Reply::Exhausted))),
        (7 + 8 * 5, Some(Outcome::Plain(Reply::Value(5)))),
        (2 + 8 * 5, None),
        (3 + 8 * 1_048_576, None),
    ] {
        let word = RecordWord::unpack((payload << 36) + 12);
        assert_eq!(rt; outcome_of(word), outcome, "of {payload}");
    }
}
