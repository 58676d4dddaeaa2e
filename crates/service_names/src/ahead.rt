//! Names that calls to come look for.

ghost use Rattle.std.specs.Prelude.{◌<◌};

use crate::sought::{Noted, read_first};
use directories::hash_of;
use filer_state::Files;
use inodes::GROUP;
use nfs_values::{Call, Fileid, Named, Target, VolumeNumber};
use parcels::LogicalHeld;
use std::alloc::Global;
use std::array;
use std::cell::{Cell, RefCell};
use std::collections::VecDeque;

/// How many volumes have names of their own.
const VOLUMES: usize = 8;

/// How many names of a volume are kept at most. One more takes the place of all of them.
const MOST: usize = 1024;

/// After how many calls a name is sought again that wasn't among the first.
const MISSED: u32 = 8;

/// How many calls on a volume aren't noted after names of which none was guessed, as in one small
/// directory or a small volume.
const REST: u32 = 240;

/// The names that calls to come look for on a volume, in the order of the calls.
struct Names {
    waiting: RefCell<VecDeque<Noted>>,
    /// How many calls on names run before more names are read.
    until: Cell<u32>,
    /// How many calls more aren't noted.
    rest: Cell<u32>,
}

// By hand, so that crates above have no proof of the drop of each of its parts.
impl Drop for Names {
    fn drop(self) {
        let Names {
            waiting: _,
            until: _,
            rest: _,
        } = self;
    }
}

/// What a lane keeps beside its calls. The names that calls to come look for: each step of a search
/// waits for memory; here each step is done for many names before the next one, so that they wait
/// at the same time, and a call finds in a cache what it looks for. And how many calls were told a
/// reply again. No reply rests on it.
pub struct Ahead {
    /// By the volumes' numbers.
    names: [Names; VOLUMES],
    /// How many calls were told a reply again, wrapping at 2^64.
    repeated: Cell<u64>,
}

// By hand, so that crates above have no proof of the drop of each of its parts.
impl Drop for Ahead {
    fn drop(self) {
        let Ahead {
            names: _,
            repeated: _,
        } = self;
    }
}

impl Ahead {
    /// No name. It takes no memory.
    pub fn new(alloc: Global) -> Ahead {
        Ahead {
            names: array::from_fn(|_volume| Names::new(alloc)),
            repeated: Cell::new(0),
        }
    }

    /// Counts a call that was told a reply again.
    pub fn count_repeated(&self) {
        self.repeated.set(self.repeated.get().wrapping_add(1));
    }

    /// How many calls were told a reply again, wrapping at 2^64.
    pub fn repeated(&self) -> u64 {
        self.repeated.get()
    }

    /// Notes the name that a call looks for, if it does. Where there is no memory it isn't noted.
    pub fn note(&self, call: &Call) {
        if let Some((target, named)) = target_of(call) {
            self.names[place_of(named.volume)].note(named.fileid, target);
        }
    }
}

/// Before a call runs that looks for a name in a directory, reads what the directory's volume has
/// of it and of the next names that were noted, unless an earlier call did.
pub fn look_ahead(
    ahead: Option<&Ahead>,
    held: &LogicalHeld<Files>,
    directory: Named,
    target: &Target,
) {
    if let Some(ahead) = ahead {
        ahead.names[place_of(directory.volume)].look(directory.fileid, target, held);
    }
}

impl Names {
    /// No name. It takes no memory.
    fn new(alloc: Global) -> Names {
        Names {
            waiting: RefCell::new(VecDeque::new(alloc)),
            until: Cell::new(0),
            rest: Cell::new(0),
        }
    }

    /// Notes a name, unless it is one of those that aren't.
    fn note(&self, directory: Fileid, target: &Target) {
        let rest = self.rest.get();
        if rest > 0 {
            self.rest.set(rest - 1);
            return;
        }
        if let Ok(mut waiting) = self.waiting.try_borrow_mut() {
            put(&mut waiting, noted_in(directory, target));
        }
    }

    /// Before a call runs that looks for a name, reads this one and the next ones, unless an
    /// earlier call did.
    fn look(&self, directory: Fileid, target: &Target, held: &LogicalHeld<Files>) {
        match self.until.get() {
            0 => self.read(directory, target, held),
            until => self.until.set(until - 1),
        }
    }

    /// Reads a name that a call looks for and the next ones, if it is among the first of these.
    fn read(&self, directory: Fileid, target: &Target, held: &LogicalHeld<Files>) {
        let Ok(mut waiting) = self.waiting.try_borrow_mut() else {
            return;
        };
        // (one alone is left to its call)
        if waiting.len() < 2 {
            waiting.clear();
            return;
        }
        if !leave_earlier(&mut waiting, noted_in(directory, target)) {
            self.until.set(MISSED);
            return;
        }
        let (taken, any) = read_first(&mut waiting, held);
        self.until.set(taken.saturating_sub(1));
        if !any {
            waiting.clear();
            self.rest.set(REST);
        }
    }
}

/// Where the names of a volume are.
fn place_of(volume: VolumeNumber) -> usize
    ensures { result < 8 }
{
    volume.0 as usize % VOLUMES
}

/// The name that a call looks for, and its directory, if it does.
fn target_of(call: &Call) -> Option<(&Target, Named)> {
    let target = match call {
        Call::Lookup(target) => target,
        Call::Create { target, .. } => target,
        Call::Remove(target) => target,
        _ => return None,
    };
    Some((target, target.directory.named()?))
}

/// A name that is looked for in a directory.
fn noted_in(directory: Fileid, target: &Target) -> Noted {
    Noted {
        directory,
        hash: hash_of(target.name.as_bytes()),
    }
}

/// Puts a name behind all others, or in their place if there are too many.
fn put(waiting: &mut VecDeque<Noted>, name: Noted) {
    if waiting.len() >= MOST {
        waiting.clear();
    }
    // (without memory it isn't noted)
    let _put = waiting.push_back(name);
}

/// Leaves out names before one, whose calls have run, if it is among the first. Answers whether it
/// is.
fn leave_earlier(waiting: &mut VecDeque<Noted>, name: Noted) -> bool {
    let earlier = waiting.iter().take(GROUP).position(|other| other.hash == name.hash
        && other.directory.0 == name.directory.0);
    match earlier {
        Some(earlier) => {
            for _ in 0..earlier {
                waiting.pop_front();
            }
            true
        }
        None => false,
    }
}
