//! Names that calls to come look for, of which a volume's memory is read side by side.

ghost use Rattle.std.specs.Prelude.{◌≤◌};

use directories::Directory;
use filer_state::Files;
use inodes::GROUP;
use nfs_values::Fileid;
use parcels::LogicalHeld;
use std::collections::VecDeque;

/// In a volume of fewer inodes nothing is read in advance of small directories: a cache has most of
/// what calls read of them.
const MANY: usize = 32_768;

/// A name that a call to come looks for in a directory.
#[derive(Clone, Copy)]
pub(crate) struct Noted {
    pub(crate) directory: Fileid,
    pub(crate) hash: u32,
}

/// A name, and what was read of it.
#[derive(Clone, Copy)]
struct Sought {
    name: Noted,
    slot: Option<u32>,
    fileid: Fileid,
    /// What came of the reads that nothing else is read by.
    read: u64,
}

impl Sought {
    /// No name.
    const NOTHING: Sought = Sought {
        name: Noted {
            directory: Fileid(0),
            hash: 0,
        },
        slot: None,
        fileid: Fileid(0),
        read: 0,
    };
}

/// Takes the first names, and reads what a volume has of them. Answers how many were taken, and
/// whether any was guessed.
#[inline(never)] // else the room of a group is set to zero for each call
pub(crate) fn read_first(waiting: &mut VecDeque<Noted>, held: &LogicalHeld<Files>) -> (u32, bool) {
    let mut group = [Sought::NOTHING; GROUP];
    let taken = take_into(&mut group, waiting);
    let any = look_for(&mut group[..taken], held);
    (taken as u32, any)
}

/// Takes the first names into a group, and tells how many.
fn take_into(group: &mut [Sought; GROUP], waiting: &mut VecDeque<Noted>) -> usize
    ensures { result ≤ 16 }
{
    for at in 0..GROUP {
        match waiting.pop_front() {
            Some(name) => group[at].name = name,
            None => return at,
        }
    }
    GROUP
}

/// Reads what a volume has of some names. Answers whether any was guessed, or they are in several
/// of many directories.
fn look_for(group: &mut [Sought], held: &LogicalHeld<Files>) -> bool {
    let places = places_of(group, held);
    read_guesses(group, &places);
    let apart = are_apart(group) && held.own.get().inodes.len() >= MANY;
    if apart {
        read_indexes(group, &places);
        read_parents(group, held);
    }
    guess(group, &places, apart);
    if !apart && group.iter().all(|sought| sought.slot.is_none()) {
        return false;
    }
    read_entries(group, &places);
    read_inodes(group, held);
    true
}

/// Whether names are looked for in several directories.
fn are_apart(group: &[Sought]) -> bool {
    match group.first() {
        Some(first) => group
            .iter()
            .any(|sought| sought.name.directory.0 != first.name.directory.0),
        None => false,
    }
}

/// The directories that names are looked for in.
fn places_of<'a>(group: &[Sought], held: &'a LogicalHeld<Files>) -> [Option<&'a Directory>; GROUP] {
    let directories = &held.own.get().directories;
    let mut places = [None; GROUP];
    for at in 0..GROUP {
        if let Some(sought) = group.get(at) {
            places[at] = directories.get(sought.name.directory);
        }
    }
    places
}

/// Reads where names are guessed.
fn read_guesses(group: &mut [Sought], places: &[Option<&Directory>; GROUP]) {
    for (sought, place) in group.iter_mut().zip(places.iter()) {
        if let Some(directory) = place {
            sought.read = directory.read_guesses(sought.name.hash);
        }
    }
}

/// Reads where in indexes names are looked for first.
fn read_indexes(group: &mut [Sought], places: &[Option<&Directory>; GROUP]) {
    for (sought, place) in group.iter_mut().zip(places.iter()) {
        if let Some(directory) = place {
            sought.read = directory.read_index(sought.name.hash);
        }
    }
}

/// Reads the inodes of the directories.
fn read_parents(group: &mut [Sought], held: &LogicalHeld<Files>) {
    for sought in group.iter_mut() {
        sought.fileid = sought.name.directory;
    }
    read_inodes(group, held);
}

/// Guesses the slots of names, in small directories only where these are asked for.
fn guess(group: &mut [Sought], places: &[Option<&Directory>; GROUP], small: bool) {
    for (sought, place) in group.iter_mut().zip(places.iter()) {
        if let Some(directory) = place {
            if small || !directory.is_small() {
                sought.slot = directory.slot_guessed(sought.name.hash);
            }
        }
    }
}

/// Reads the entries in the slots of names.
fn read_entries(group: &mut [Sought], places: &[Option<&Directory>; GROUP]) {
    for (sought, place) in group.iter_mut().zip(places.iter()) {
        sought.fileid = fileid_of(*place, sought.slot);
    }
}

/// The fileid of the entry in the slot that a name is guessed in; 0 where there is none.
fn fileid_of(place: Option<&Directory>, slot: Option<u32>) -> Fileid {
    match (place, slot) {
        (Some(directory), Some(slot)) => directory.fileid_guessed(slot),
        _ => Fileid(0),
    }
}

/// Reads the inodes of the fileids of a group.
fn read_inodes(group: &mut [Sought], held: &LogicalHeld<Files>) {
    let mut fileids = [Fileid(0); GROUP];
    for (fileid, sought) in fileids.iter_mut().zip(group.iter()) {
        *fileid = sought.fileid;
    }
    let read = held.own.get().inodes.read_ahead(&fileids);
    for sought in group.iter_mut() {
        sought.read = read;
    }
}
