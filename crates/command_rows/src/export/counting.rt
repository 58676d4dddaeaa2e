//! Rows typed by hand.

use crate::looking::holds;
use nfs_values::{Answer, AuthFault, Procedure, Refusal, Reply, Status};
use statistics::{Histogram, RefusalKind, ReplyCounts, ReplyKind, Tally, Totals};
use std::process::Abort;
use std::thread;

/// Times and the longest of their buckets, in microseconds: up to 7 each for itself, and then four
/// buckets between a power of two and the next.
const TOPS: [(u64, u64); 20] = [
    (0, 0),
    (1, 1),
    (3, 3),
    (4, 4),
    (7, 7),
    (8, 9),
    (9, 9),
    (10, 11),
    (12, 13),
    (15, 15),
    (16, 19),
    (19, 19),
    (20, 23),
    (1_000, 1_023),
    (1_024, 1_279),
    (1_000_000, 1_048_575),
    (3_758_096_383, 3_758_096_383),
    (3_758_096_384, 4_294_967_295),
    (4_294_967_295, 4_294_967_295),
    (4_294_967_296, 4_294_967_295),
];

/// Looks in which bucket a time is.
fn has_top(rt: &impl Abort, micros: u64, top: u64) {
    let mut times = Histogram::new();
    times.put(micros, 1);
    assert_eq!(rt; times.percentile(50), top, "{micros}");
}

#[test]
fn times_have_buckets(rt: HostRuntime) {
    for (micros, top) in &TOPS {
        has_top(&rt, *micros, *top);
    }
}

/// 90 calls of 10 microseconds, 9 of 100 and one of a second.
fn hundred() -> Histogram {
    let mut times = Histogram::new();
    times.put(10, 40);
    times.put(100, 9);
    times.put(1_000_000, 1);
    times.put(10, 50);
    times
}

/// Percentages of these calls, and the top of the bucket up to which so many are.
const PERCENTILES: [(u32, u64); 8] = [
    (0, 0),
    (1, 11),
    (50, 11),
    (90, 11),
    (91, 111),
    (99, 111),
    (100, 1_048_575),
    (1_000, 1_048_575),
];

/// Looks at a percentile.
fn is_at(rt: &impl Abort, times: &Histogram, percent: u32, top: u64) {
    assert_eq!(rt; times.percentile(percent), top, "{percent}");
}

#[test]
fn percentiles_are_tops(rt: HostRuntime) {
    let times = hundred();
    for (percent, top) in &PERCENTILES {
        is_at(&rt, &times, *percent, *top);
    }
    is_at(&rt, &Histogram::new(), 99, 0);
}

#[test]
fn times_are_added_and_taken(rt: HostRuntime) {
    let mut times = hundred();
    let before = times;
    times.put(5, 300);
    is_at(&rt, &times, 50, 5);
    is_at(&rt, &times.since(&before), 100, 5);
    times.add(&before);
    is_at(&rt, &times, 80, 11);
}

/// Counts that are at their most begin anew.
#[test]
fn counts_wrap(rt: HostRuntime) {
    let mut times = Histogram::new();
    times.put(3, u64::MAX);
    times.put(3, 1);
    is_at(&rt, &times, 100, 0);
    let mut now = Histogram::new();
    now.put(3, 2);
    let mut earlier = Histogram::new();
    earlier.put(3, u64::MAX);
    earlier.put(9, 0);
    let mut since = now.since(&earlier);
    since.put(9, 3);
    is_at(&rt, &since, 50, 3);
    is_at(&rt, &since, 51, 9);
}

/// Replies, and the names of their kinds (RFC 1813 section 3.3, RFC 5531 section 9).
fn named() -> [(Reply, &'static str); 13] {
    [
        (Reply::Success(Answer::Null), "NULL"),
        (
            Reply::Success(Answer::GetAttributes(Err(Status::Stale))),
            "GETATTR",
        ),
        (Reply::Success(Answer::Remove(Err(Status::Stale))), "REMOVE"),
        (
            Reply::Success(Answer::MakeDevice(Err(Status::BadType))),
            "MKNOD",
        ),
        (Reply::Success(Answer::Stop), "STOP"),
        (Reply::Success(Answer::ListMounts), "DUMP"),
        (Reply::Refused(Refusal::ProgramUnavailable), "PROG_UNAVAIL"),
        (
            Reply::Refused(Refusal::ProgramMismatch { low: 3, high: 3 }),
            "PROG_MISMATCH",
        ),
        (
            Reply::Refused(Refusal::ProcedureUnavailable),
            "PROC_UNAVAIL",
        ),
        (Reply::Refused(Refusal::GarbageArguments), "GARBAGE_ARGS"),
        (Reply::Refused(Refusal::SystemError), "SYSTEM_ERR"),
        (
            Reply::Refused(Refusal::RpcMismatch { low: 2, high: 2 }),
            "RPC_MISMATCH",
        ),
        (
            Reply::Refused(Refusal::AuthError(AuthFault::BadCredential)),
            "AUTH_ERROR",
        ),
    ]
}

/// Looks at the name of a reply's kind, and whether replies of it are counted.
fn is_named(rt: &impl Abort, reply: &Reply, name: &str) {
    let kind = ReplyKind::of(reply);
    assert_eq!(rt; kind.name(), name);
    let mut counts = ReplyCounts::new();
    counts.count(kind);
    counts.count(kind);
    assert!(rt; counts.of(kind) == 2, "{name}");
}

#[test]
fn replies_have_kinds(rt: HostRuntime) {
    for (reply, name) in &named() {
        is_named(&rt, reply, name);
    }
}

/// What a lane counts of 800 calls of GETATTR, 400 of LOOKUP, three of NULL that were answered at
/// once, two calls of a program that isn't there and one for which there was no memory.
fn counted() -> Tally {
    let tally = Tally::new();
    for _ in 0..800 {
        tally.count(&Reply::Success(Answer::GetAttributes(Err(Status::Stale))));
    }
    for _ in 0..400 {
        tally.count(&Reply::Success(Answer::Lookup(Err(Status::NoEntry))));
    }
    tally.count(&Reply::Refused(Refusal::SystemError));
    let mut at_once = ReplyCounts::new();
    at_once.count(ReplyKind::Answered(Procedure::Null));
    tally.at_once(&at_once);
    at_once.count(ReplyKind::Answered(Procedure::Null));
    at_once.count(ReplyKind::Refused(RefusalKind::ProgramUnavailable));
    at_once.count(ReplyKind::Answered(Procedure::Null));
    at_once.count(ReplyKind::Refused(RefusalKind::ProgramUnavailable));
    tally.at_once(&at_once);
    tally
}

/// Looks at the line of what was counted.
fn is_told(rt: &(impl Abort + AllocGlobal), totals: &Totals, text: &str) {
    let line = totals.to_string(rt.alloc()).ok();
    let line = line.expect(rt, "memory");
    assert_eq!(rt; line.as_str(), text);
}

#[test]
fn a_line_tells_what_was_counted(rt: HostRuntime) {
    let tally = counted();
    tally.took(12, 1_000);
    tally.took(80, 203);
    for _ in 0..4 {
        tally.busy();
    }
    let mut totals = Totals::new();
    totals.add(&tally);
    holds(&rt, totals.calls() == 1_203 && totals.busy() == 4);
    holds(&rt, totals.replies(ReplyKind::STARVED) == 1);
    holds(&rt, totals.percentile(50) == 13);
    is_told(
        &rt,
        &totals,
        "calls 1203: NULL 3, GETATTR 800, LOOKUP 400; p50 13 us, p99 95 us; \
         refused: PROG_UNAVAIL 2; busy 4, starved 1",
    );
}

#[test]
fn nothing_is_told_shortly(rt: HostRuntime) {
    is_told(
        &rt,
        &Totals::new(),
        "calls 0; p50 0 us, p99 0 us; busy 0, starved 0",
    );
}

/// Adds what two lanes count.
fn sum_of(tallies: &[Tally; 2]) -> Totals {
    let mut totals = Totals::new();
    for tally in tallies {
        totals.add(tally);
    }
    totals
}

#[test]
fn two_lanes_make_one_line(rt: HostRuntime) {
    let tallies = [counted(), counted()];
    tallies[0].repeated(2);
    let earlier = sum_of(&tallies);
    holds(&rt, earlier.repeated() == 2);
    holds(&rt, earlier.calls() == 2_406);
    tallies[0].count(&Reply::Success(Answer::Grow(Err(Status::NoSpace))));
    tallies[1].count(&Reply::Success(Answer::ListMounts));
    tallies[0].count(&Reply::Refused(Refusal::GarbageArguments));
    tallies[0].took(7, 1);
    tallies[0].repeated(3);
    tallies[1].repeated(4);
    is_told(
        &rt,
        &sum_of(&tallies).since(&earlier),
        "calls 2: DUMP 1, GROW 1; p50 7 us, p99 7 us; refused: GARBAGE_ARGS 1; \
         busy 0, starved 0, told again 5",
    );
}

#[test]
fn another_thread_reads(rt: HostRuntime) {
    let tally = Tally::new();
    let (_counted, seen) = thread::join(&rt, || tally.busy(), || tally.read().busy());
    holds(&rt, seen <= 1 && tally.read().busy() == 1);
}
