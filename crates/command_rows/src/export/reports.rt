//! What a line of statistics tells, when it is told, and the times of calls.

use crate::looking::holds;
use clerk::{Period, Report, Times, Used};
use statistics::Totals;
use std::process::Abort;

#[test]
fn a_line_with_nothing_to_tell(rt: HostRuntime) {
    let report = Report {
        totals: Totals::new(),
        open: 3,
        used: Some(Used {
            blocks: 120,
            inodes: 17,
        }),
    };
    let line = format!(in rt.alloc(); "{report}").expect(&rt, "memory");
    let wanted = "calls 0; p50 0 us, p99 0 us; busy 0, starved 0; connections 3, \
                  blocks 120, inodes 17";
    holds(&rt, line.as_str() == wanted);
}

#[test]
fn minutes_of_a_day(rt: HostRuntime) {
    holds(
        &rt,
        Period::new(0).is_none() && Period::new(1_441).is_none(),
    );
    let day = Period::new(1_440).expect(&rt, "a period");
    holds(&rt, day.milliseconds() == 86_400_000);
}

/// Looks since when calls wait that are taken, and how many they are.
fn takes(rt: &impl Abort, times: &mut Times, most: usize, since: u64, calls: usize) {
    let span = times.take(most).expect(rt, "a span");
    assert!(rt; span.since == since && span.calls == calls);
}

#[test]
fn times_of_calls_that_wait(rt: HostRuntime) {
    let mut times = Times::new(rt.alloc(), 4).expect(&rt, "memory");
    holds(&rt, times.take(5).is_none());
    holds(
        &rt,
        times.put(100, 3) && times.put(150, 0) && times.put(200, 2),
    );
    holds(&rt, times.take(0).is_none());
    takes(&rt, &mut times, 2, 100, 2);
    takes(&rt, &mut times, 9, 100, 1);
    takes(&rt, &mut times, 9, 200, 2);
    holds(&rt, times.take(9).is_none());
}
