//! What a worker does in one thread, as rows of a table.

use crate::calls::Ask;
use crate::station::{Came, Station};
use granted_calls::Unwatched;
use nfs_values::VolumeNumber;
use std::process::Abort;
use std::sync::Wait;
use turns::Tend;

/// One thing that is done, and what comes of it.
#[derive(Clone, Copy)]
pub(crate) enum Row {
    /// A message of this call is put for each xid from the first to before the second.
    Put(u32, u32, Ask),
    /// A turn at a moment of whole seconds.
    Turn(u32, Came),
    Fetch(u32, u32, Came),
    Cull(u32, Came),
    PutDown(Came),
    /// Whether a message is kept for which the queue had no place.
    Keeps(bool),
    /// The record that waits longest is dropped.
    Skip,
    /// The record that waits longest: its bytes, its xid, and its words after the verifier.
    Reply(u32, u32, &'static [u32]),
}

/// A reply that is accepted, with an empty verifier, of a call that was carried out (RFC 5531
/// section 9).
const ACCEPTED: [u32; 5] = [1, 0, 0, 0, 0];

/// The mark of a record of one fragment (RFC 5531 section 11), but for its length.
const LAST_FRAGMENT: u32 = 0x8000_0000;

/// Looks whether a record has these words, each with the highest byte first.
fn has_words(rt: &(impl Abort + AllocGlobal), record: &[u8], parts: &[&[u32]]) {
    let mut bytes = Vec::new(rt.alloc());
    for words in parts {
        for word in *words {
            let added = bytes.extend_from_slice(&word.to_be_bytes());
            added.expect(rt, "no memory");
        }
    }
    assert_eq!(rt; record, &bytes[..]);
}

/// Looks whether this came.
pub(crate) fn came(rt: &impl Abort, found: Came, wanted: Came) {
    assert_eq!(rt; found, wanted);
}

/// Does what a row says.
fn step<R: Abort + AllocGlobal + Wait>(rt: &R, station: &mut Station, row: &Row) {
    match row {
        Row::Put(from, until, ask) => station.put(rt, *from, *until, *ask),
        Row::Turn(seconds, wanted) => came(rt, station.turn(rt, &Unwatched, *seconds), *wanted),
        Row::Fetch(volume, range, wanted) => {
            let volume = VolumeNumber(*volume);
            let fetch = Tend::Fetch {
                volume,
                range: *range,
            };
            came(rt, station.tend(fetch), *wanted);
        }
        Row::Cull(volume, wanted) => {
            let volume = VolumeNumber(*volume);
            came(rt, station.tend(Tend::Cull { volume }), *wanted);
        }
        Row::PutDown(wanted) => came(rt, station.tend(Tend::PutDown), *wanted),
        Row::Keeps(wanted) => assert!(rt; station.worker.keeps_message() == *wanted),
        Row::Skip => drop(station.mail.take(rt)),
        Row::Reply(bytes, xid, words) => {
            let record = station.mail.take(rt).expect(rt, "a record");
            let head = [LAST_FRAGMENT | *bytes, *xid];
            has_words(rt, record.as_slice(), &[&head, &ACCEPTED, words]);
        }
    }
}

/// Does what rows say, one after another.
pub(crate) fn play<R: Abort + AllocGlobal + Wait>(rt: &R, station: &mut Station, rows: &[Row]) {
    for row in rows {
        step(rt, station, row);
    }
}
