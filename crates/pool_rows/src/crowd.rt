//! Thousands of messages, and several threads that run them.

ghost use Rattle.std.specs.Prelude.{◌≤◌, ◌<◌};

use crate::calls::{Ask, ROOT};
use crate::running::start;
use granted_calls::Unwatched;
use std::process::Abort;
use std::rt::Clock;
use std::sync::Wait;
use std::thread::Threads;

/// How many messages are put.
const MESSAGES: u32 = 3000;

/// One of eight kinds of calls, in turn, on two volumes. Each WRITE is of more than one block.
fn ask_of(number: u32) -> Ask {
    let volume = number / 8 % 2;
    let file = number / 16;
    let fileid = 2 + u64::from(file % 16);
    match number % 8 {
        0 => Ask::Create(volume, (file % 32) as u8),
        1 => Ask::Lookup(volume, (file % 64) as u8),
        2 => Ask::Attributes(volume, ROOT),
        3 => Ask::Write(volume, fileid, u64::from(file % 3 * 4096), 5000, 7),
        4 => Ask::Read(volume, fileid, 0, 8192),
        5 => Ask::Status(volume),
        6 => Ask::Remove(volume, (file % 16) as u8),
        _ => Ask::Census,
    }
}

/// Puts them while this many threads run. How many were answered and how many were left.
fn run<R>(rt: R, threads: usize) -> (u32, usize)
where
    R: Abort + AllocGlobal + Threads + Wait + Clock + Copy + Drop + Send + 'static,
    requires some { 0 < threads }
    requires fit { threads ≤ 64 }
{
    let mut running = start(rt, &Unwatched, threads);
    for number in 0..MESSAGES {
        running.put(&rt, number, ask_of(number));
    }
    let (ended, mut mail) = running.stop(&rt);
    for answered in 0..MESSAGES {
        if mail.take(&rt).is_none() {
            return (answered, ended.kept.len() + ended.waiting.len());
        }
    }
    assert!(&rt; mail.take(&rt).is_none());
    (MESSAGES, ended.kept.len() + ended.waiting.len())
}

#[test]
fn all_that_is_put_is_answered_or_left(rt: HostRuntime) {
    for threads in 1..5usize {
        let (answered, left) = run(rt, threads);
        assert_eq!(&rt; MESSAGES.checked_sub(answered), u32::try_from(left).ok());
    }
}
