//! What comes of turns, and who looks on.

use crate::answer::Answer;
use crate::envelope::Envelope;
use affinity::Affinity;
use depot::GrantRefusal;
use nfs_values::{ConnectionNumber, Reply};
use service::Ahead;
use statistics::Tally;

/// What came of a turn.
pub enum Turn {
    /// A call is finished; its answer has to be put.
    Done(Answer),
    /// A call has to run elsewhere. Its message waits again, or is kept.
    Moved,
    /// The word of a node was found taken. The message waits again, or is kept.
    Busy { node: Affinity, word: u64 },
    /// 2^62 calls were finished. The message waits again, or is kept.
    Worn,
    /// No message waited.
    Idle,
}

/// What came of a message on a seat. But for an answer there is no entry.
pub enum Served {
    Done(Answer),
    /// It has to run elsewhere, as the message says.
    Moved(Envelope),
    /// It didn't begin.
    Refused(Envelope, GrantRefusal),
}

/// How far a call came.
#[derive(Clone, Copy, PartialEq)]
pub enum Stage {
    Begun,
    Run,
    Ended,
}

/// A call, and how far it came.
#[derive(Clone, Copy)]
pub struct Place {
    pub connection: ConnectionNumber,
    pub xid: u32,
    pub stage: Stage,
}

/// Who is told of each call as it goes on: after its begin, after its run, and after its end.
pub trait Gate {
    /// A call came to a place.
    fn pass(&self, place: Place);

    /// A call was finished by its entry, of which this reply was told. One that moves isn't
    /// finished.
    fn finish(&self, _told: &Reply) {}

    /// What calls to come look for, if that is noted.
    fn ahead(&self) -> Option<&Ahead> {
        None
    }
}

/// What lets every call pass.
#[derive(Clone, Copy)]
pub struct Unwatched;

impl Gate for Unwatched {
    fn pass(&self, _place: Place) {}
}

/// It counts what is told of calls that are finished.
impl Gate for Tally {
    fn pass(&self, _place: Place) {}

    fn finish(&self, told: &Reply) {
        self.count(told);
    }
}
