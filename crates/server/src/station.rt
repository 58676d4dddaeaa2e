//! What a lane's thread has beside its lane.

ghost use Rattle.std.specs.Prelude.{◌<◌, length};

use crate::common::Common;
use crate::company::{Company, Share};
use crate::counting::Counting;
use crate::guests::Guests;
use crate::keys::Keys;
use crate::mailbox::{Arrival, Mailbox};
use crate::pace::Pace;
use connections::BUFFER_BYTES;
use mio::{Events, Poll};
use rpc_msg::BoxedCall;
use std::alloc::{AllocError, Global};
use std::net::Net;
use std::sync::Arc;
use tends::StartRefusal;

/// How many bytes are read at once: seven WRITEs of 64 KiB.
const BLOCK_BYTES: usize = 524_288;

/// The most events that one poll gives.
const EVENTS: usize = 128;

/// What a lane reads into, and what it joins replies in.
#[derive(Drop)]
pub(crate) struct Buffers {
    /// Memory for the call that is read.
    pub(crate) asked: BoxedCall,
    pub(crate) block: Vec<u8>,
    pub(crate) buffer: Vec<u8>,
    ghost some: { 0 < length block.items },
}

impl Buffers {
    /// Blocks of 512 KiB and of 256 KiB.
    fn new(alloc: Global) -> Result<Buffers, AllocError> {
        Ok(Buffers {
            asked: BoxedCall::blank(alloc)?,
            block: vec![in alloc; 0; BLOCK_BYTES]?,
            buffer: Vec::with_capacity(alloc, BUFFER_BYTES)?,
        })
    }
}

/// What a lane's thread has beside its lane: what it waits by, what is left for it, and what it
/// keeps between its rounds.
pub(crate) struct Station {
    pub(crate) poll: Poll,
    pub(crate) events: Events,
    pub(crate) mailbox: Arc<Mailbox>,
    pub(crate) common: Arc<Common>,
    pub(crate) keys: Keys,
    pub(crate) guests: Guests,
    pub(crate) company: Company,
    /// How much of the lane a connection may have, as it was when one was visited last.
    pub(crate) share: Share,
    pub(crate) buffers: Buffers,
    pub(crate) pace: Pace,
    /// What is counted, where that is told.
    pub(crate) counting: Option<Counting>,
    /// Room for the streams of the mailbox.
    pub(crate) mail: Vec<Arrival>,
    /// How often a stream had been left when the mailbox was last emptied.
    pub(crate) seen: u64,
    /// The second of the last word of a crowd upon which idle connections were closed.
    pub(crate) cleared: u64,
    /// Whether there may be replies that weren't written, though the socket has room.
    pub(crate) is_writing: bool,
}

// By hand, so that crates above have no proof of the drop of each of its parts.
impl Drop for Station {
    fn drop(self) {
        let Station {
            poll: _,
            events: _,
            mailbox: _,
            common: _,
            keys: _,
            guests: _,
            company: _,
            share: _,
            buffers: _,
            pace: _,
            counting: _,
            mail: _,
            seen: _,
            cleared: _,
            is_writing: _,
        } = self;
    }
}

impl Station {
    /// A station of a server whose threads share this, for at most this many connections.
    pub(crate) fn new(
        alloc: Global,
        net: &impl Net,
        common: Arc<Common>,
        most_open: usize,
    ) -> Result<Station, StartRefusal> {
        let Ok(poll) = Poll::new(net) else {
            return Err(StartRefusal::NoThread);
        };
        let Ok(mailbox) = Arc::new(alloc, Mailbox::new(alloc, &poll, most_open)?) else {
            return Err(StartRefusal::NoMemory);
        };
        let counting = if common.tallies.is_empty() {
            None
        } else {
            Some(Counting::new(alloc)?)
        };
        Ok(Station {
            poll,
            events: Events::with_capacity(alloc, EVENTS)?,
            mailbox,
            common,
            keys: Keys::new(alloc, most_open)?,
            guests: Guests::new(alloc, most_open)?,
            company: Company::new(),
            share: Share::all(),
            buffers: Buffers::new(alloc)?,
            pace: Pace::new(),
            counting,
            mail: Vec::with_capacity(alloc, most_open)?,
            seen: 0,
            cleared: 0,
            is_writing: false,
        })
    }
}
