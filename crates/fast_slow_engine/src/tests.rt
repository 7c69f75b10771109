//! Failures up to their limit.
use crate::contention::Contention;

#[test]
fn failures_are_counted_up_to_the_limit(rt: HostRuntime) {
    let mut contention = Contention::new(2);
    assert!(rt; contention.may_try());
    contention.count();
    assert!(rt; contention.may_try());
    contention.count();
    assert!(rt; !contention.may_try());
    contention.count();
    assert_eq!(rt; contention.failures, 2);
    assert!(rt; !Contention::new(0).may_try());
}
