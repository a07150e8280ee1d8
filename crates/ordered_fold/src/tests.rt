use super::*;
use confidence::{Answer, PointFault, PointKind, Sums, Test};

const TEST: Test = Test {
    min: 2,
    z: 3000,
    error: 300,
};

#[test]
fn stops_where_the_test_holds(rt: HostRuntime) {
    let mut front = Front::new(3, TEST);
    front.push(Answer::Cycles(16));
    assert_eq!(rt; front.ending(), Ending::Going);
    front.push(Answer::Cycles(16));
    assert_eq!(rt; front.ending(), Ending::Stopped { count: 2 });
    assert_eq!(rt;
        front.sums(),
        Sums {
            n: 2,
            s1: 32,
            s2: 512
        }
    );
}

#[test]
fn stops_also_at_the_last_answer(rt: HostRuntime) {
    let mut front = Front::new(2, TEST);
    front.push(Answer::Cycles(16));
    assert_eq!(rt; front.ending(), Ending::Going);
    front.push(Answer::Cycles(16));
    assert_eq!(rt; front.ending(), Ending::Stopped { count: 2 });
}

#[test]
fn is_exhausted_where_the_test_fails(rt: HostRuntime) {
    let mut front = Front::new(2, TEST);
    front.push(Answer::Cycles(16));
    assert_eq!(rt; front.ending(), Ending::Going);
    front.push(Answer::Cycles(20));
    assert_eq!(rt; front.ending(), Ending::Exhausted);
    assert_eq!(rt;
        front.sums(),
        Sums {
            n: 2,
            s1: 36,
            s2: 656
        }
    );
    assert_eq!(rt; front.count(), 2);
}

#[test]
fn leaves_a_fault_out(rt: HostRuntime) {
    let fault = PointFault {
        kind: PointKind::Missing,
        pc: 65_620,
    };
    let mut front = Front::new(3, TEST);
    front.push(Answer::Cycles(16));
    assert_eq!(rt; front.ending(), Ending::Going);
    front.push(Answer::Fault(fault));
    assert_eq!(rt; front.ending(), Ending::Faulted { point: 1, fault });
    assert_eq!(rt;
        front.sums(),
        Sums {
            n: 1,
            s1: 16,
            s2: 256
        }
    );
    assert_eq!(rt; front.count(), 1);
}

/// Takes types that may go from one thread to another.
fn is_sent<T: Send>(_: &T) {}

#[test]
fn may_go_to_another_thread(rt: HostRuntime) {
    let front = Front::new(3, TEST);
    is_sent(&front);
    assert_eq!(rt;
        (front.total(), front.pushed(), front.is_going()),
        (3, 0, true)
    );
}
