//! What lawful command lines ask for. `trials/command_lines` has lines that are none.

use crate::looking::holds;
use filer_commands::{Command, command};
use server_options::{Options, Peers, WhenFull};
use std::process::Abort;

/// The options of a command line of `filer export`.
pub(crate) fn options_of(rt: &(impl Abort + AllocGlobal), words: &[&str]) -> Options {
    match command(rt.alloc(), words) {
        Ok(Command::Export(exporting)) => exporting.options,
        _ => panic!(rt; "no export"),
    }
}

/// No word at all, which no system gives to a program.
const NO_WORD: [&str; 0] = [];

#[test]
fn no_word_asks_for_help(rt: HostRuntime) {
    holds(
        &rt,
        matches!(command(rt.alloc(), &NO_WORD), Ok(Command::Help)),
    );
}

/// Looks how many connections of whom a server serves.
fn serves_as_usual(rt: &impl Abort, options: &Options) {
    assert!(rt; options.volumes == 1 && options.workers == 4);
    assert!(rt; options.connections.is_none());
    assert!(rt; options.admission.most_open == 1_024);
    assert!(rt; options.admission.when_full == WhenFull::IsClosed);
    assert!(rt; matches!(options.rules.peers, Peers::Loopback));
}

/// Looks after how many seconds connections are idle.
fn is_idle_after(rt: &impl Abort, options: &Options, seconds: u32) {
    let idle = options.idle.expect(rt, "an idle time");
    assert!(rt; idle.seconds == seconds);
}

/// Looks after how many minutes statistics are told.
fn is_told_after(rt: &impl Abort, options: &Options, minutes: u32) {
    let period = options.statistics.expect(rt, "a period");
    assert!(rt; period.minutes == minutes);
}

#[test]
fn what_is_so_unless_it_is_said(rt: HostRuntime) {
    let options = options_of(&rt, &["filer", "export", "--listen", "127.0.0.1:0"]);
    serves_as_usual(&rt, &options);
    holds(&rt, !options.log && options.statistics.is_none());
    is_idle_after(&rt, &options, 600);
}

#[test]
fn what_is_said(rt: HostRuntime) {
    let words = [
        "filer",
        "export",
        "--log",
        "--listen",
        "127.0.0.1:0",
        "--idle",
        "86400",
        "--stats",
        "1440",
    ];
    let options = options_of(&rt, &words);
    holds(&rt, options.log);
    is_told_after(&rt, &options, 1_440);
    is_idle_after(&rt, &options, 86_400);
}
