//! Devices whose calls are counted, and what the answers of the system tell.

use crate::connected::device;
use crate::texts::NULL;
use connections::{Told, Watched, answer_of};
use std::io;
use std::io::ErrorKind;

/// Answers of the system that aren't counts, and what they tell.
const ANSWERS: [(ErrorKind, Told); 4] = [
    (ErrorKind::WouldBlock, Told::Blocked),
    (ErrorKind::Interrupted, Told::Blocked),
    (ErrorKind::ConnectionReset, Told::Failed),
    (ErrorKind::BrokenPipe, Told::Failed),
];

#[test]
fn answers_are_told(rt: HostRuntime) {
    for size in 0..3 {
        assert!(&rt; answer_of(&Ok(size)) == Told::Moved(size));
    }
    for (kind, told) in ANSWERS {
        let answer: io::Result<usize> = Err(io::Error::from(kind));
        assert!(&rt; answer_of(&answer) == told);
    }
}

#[test]
fn a_watched_device_is_as_itself(rt: HostRuntime) {
    let mut watched = Watched::new(device(&rt, &[&NULL], 40, 5));
    let mut block = [0; 64];
    assert!(&rt; watched.read_once(&mut block) == Told::Blocked);
    assert!(&rt; watched.read_once(&mut block) == Told::Moved(40));
    assert!(&rt; block[..4] == [0x80, 0, 0, 0x28]);
    assert!(&rt; watched.write_once(b"abc") == Told::Blocked);
    assert!(&rt; watched.write_once(b"abc") == Told::Moved(3));
    assert!(&rt; watched.read_once(&mut block) == Told::Blocked);
    assert!(&rt; watched.write_once(b"d") == Told::Failed);
    assert!(&rt; watched.into_device().taken.as_slice() == b"abc".as_slice());
}
