//! What a command line goes by of the machine that it is run on.

use arrayvec::ArrayString;
use std::fmt::Write as _;
use std::fs::File;
use std::io::Read;
use std::num::NonZeroUsize;
use std::rt::Files;
use std::thread::{Threads, available_parallelism};

/// Where Linux tells of the machine's memory, in its first line.
const MEMORY_FILE: &str = "/proc/meminfo";

/// Where Linux tells of the process's control groups, a line each.
const GROUPS_FILE: &str = "/proc/self/cgroup";

/// Where Linux tells of the machine's name.
const NAME_FILE: &str = "/proc/sys/kernel/hostname";

/// The longest path to a file of a control group that is looked at, in bytes.
const LONGEST_PATH: usize = 1_056;

/// How many control groups lie above one another at most, of those that are looked at.
const MOST_GROUPS: usize = 32;

/// The processors of a machine, the bytes of its memory, and the fewest bytes that one of the
/// process's control groups may take, where they can be read.
#[derive(Clone, Copy)]
pub struct Machine {
    pub processors: usize,
    pub memory: Option<u64>,
    pub limit: Option<u64>,
}

/// The beginning of a file, as far as it is text that fits into a buffer.
fn text_of<'a, R: Files>(rt: &R, path: &str, buffer: &'a mut [u8]) -> Option<&'a str> {
    let mut file = File::open(rt, path).ok()?;
    let count = file.read(buffer).ok()?;
    str::from_utf8(buffer.get(..count)?).ok()
}

/// The bytes of memory that a line tells, as `MemTotal:       4028440 kB`.
fn memory_in(line: &str) -> Option<u64> {
    let number = line.strip_prefix("MemTotal:")?.strip_suffix(" kB")?;
    number.trim().parse::<u64>().ok()?.checked_mul(1_024)
}

/// The bytes of the machine's memory, where they can be read.
fn read_memory<R: Files>(rt: &R) -> Option<u64> {
    let mut head = [0; 64];
    let (line, _rest) = text_of(rt, MEMORY_FILE, &mut head)?.split_once('\n')?;
    memory_in(line)
}

/// The bytes that a control group may take itself, if that is limited: `max` is no number.
fn limit_of<R: Files>(rt: &R, group: &str) -> Option<u64> {
    let mut path = ArrayString::<LONGEST_PATH>::new();
    write!(path, "/sys/fs/cgroup{group}/memory.max").ok()?;
    let mut text = [0; 32];
    let text = text_of(rt, &path, &mut text)?;
    text.trim().parse::<u64>().ok()
}

/// The fewest bytes that the process's control group may take, or one above it (the kernel's second
/// version of control groups).
fn read_limit<R: Files>(rt: &R) -> Option<u64> {
    let mut text = [0; 1_024];
    let text = text_of(rt, GROUPS_FILE, &mut text)?;
    let line = text.lines().find(|line| line.starts_with("0::/"))?;
    let mut group = line.strip_prefix("0::")?.trim_end_matches('/');
    let mut least: Option<u64> = None;
    for _ in 0..MOST_GROUPS {
        let limit = limit_of(rt, group);
        least = match (least, limit) {
            (Some(one), Some(other)) => Some(one.min(other)),
            (one, other) => one.or(other),
        };
        match group.rsplit_once('/') {
            Some((above, _name)) => group = above,
            None => return least,
        }
    }
    least
}

impl Machine {
    /// The machine that the program runs on.
    pub(crate) fn read<R: Files + Threads>(rt: &R) -> Machine {
        Machine {
            processors: available_parallelism(rt).map_or(1, NonZeroUsize::get),
            memory: read_memory(rt),
            limit: read_limit(rt),
        }
    }

    /// The bytes that volumes have between them where nothing else is said: a quarter of the
    /// memory, but no more than half of what a control group may take.
    pub(crate) fn usual_bytes(&self) -> Option<u64> {
        let quarter = self.memory.map(|memory| memory / 4);
        let half = self.limit.map(|limit| limit / 2);
        match (quarter, half) {
            (Some(quarter), Some(half)) => Some(quarter.min(half)),
            (one, other) => one.or(other),
        }
    }
}

/// The name of the machine, where it can be read.
pub(crate) fn host_name<'a, R: Files>(rt: &R, buffer: &'a mut [u8]) -> Option<&'a str> {
    let name = text_of(rt, NAME_FILE, buffer)?.trim();
    if name.is_empty() { None } else { Some(name) }
}
