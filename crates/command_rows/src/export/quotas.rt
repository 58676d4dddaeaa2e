//! What is told at most once a second, and how long connections may be silent.

use crate::looking::holds;
use clerk::Quota;
use server_options::IdleTime;
use std::process::Abort;

/// Looks how many are told of at a time.
fn takes(rt: &impl Abort, quota: &mut Quota, now: u64, count: Option<u64>) {
    assert!(rt; quota.take(now) == count);
}

#[test]
fn a_second_lies_between_two_lines(rt: HostRuntime) {
    let mut quota = Quota::new();
    takes(&rt, &mut quota, 5_000, None);
    holds(&rt, quota.wait(5_000).is_none());
    quota.add(2);
    takes(&rt, &mut quota, 5_000, Some(2));
    quota.add(1);
    takes(&rt, &mut quota, 5_999, None);
    holds(&rt, quota.wait(5_999) == Some(1));
    quota.add(3);
    takes(&rt, &mut quota, 6_000, Some(4));
    takes(&rt, &mut quota, 9_000, None);
}

#[test]
fn silence_of_so_many_seconds(rt: HostRuntime) {
    holds(
        &rt,
        IdleTime::new(0).is_none() && IdleTime::new(86_401).is_none(),
    );
    let minute = IdleTime::new(60).expect(&rt, "an idle time");
    holds(&rt, !minute.is_over(100, 159));
    holds(&rt, minute.is_over(100, 160));
    holds(&rt, !minute.is_over(100, 40));
}
