//! Connections.

ghost use Rattle.std.specs.Prelude.{◌≡◌, ◌<◌, None};
ghost use Rattle.tcp_front.specs.Arrivals.{most_records};

use crate::backlog::Backlog;
use crate::device::Device;
use crate::due::Due;
use crate::rest::Rest;
use crate::watched::Watched;
use nfs_values::ConnectionNumber;
use rpc_record::Reassembler;
use std::alloc::Global;
use std::snapshot::Snapshot;
use tcp_front::{Peer, Stopped, Stream};

/// What a thread keeps of a connection for itself. It says nothing of the connection's bytes.
#[derive(Clone, Copy, PartialEq, Eq, Debug)]
pub struct Flags {
    /// The device may have something to read.
    pub is_readable: bool,
    /// The peer closed its side, so that a short read isn't the end of what is there.
    pub is_closing: bool,
    /// A write found no room.
    pub is_blocked: bool,
    /// The device is at its end, or failed.
    pub has_ended: bool,
    /// It stands in its thread's list.
    pub is_listed: bool,
}

/// A connection: its device, where the reading of it stands, and what waits to be written to it.
#[derive(Drop)]
pub struct Connection<D> {
    pub(crate) device: Watched<D>,
    pub(crate) stream: Stream,
    /// What was read and isn't cut into records yet.
    pub(crate) kept: Backlog,
    /// What was taken from the outbox and isn't written yet.
    pub(crate) rest: Rest,
    /// Why no more is read.
    pub(crate) stopped: Option<Stopped>,
    /// Whether the device failed at a write. Nothing more is written then.
    pub(crate) is_broken: bool,
    /// The device when it was opened.
    pub(crate) opened: Snapshot<D>,
    /// What is owed for what was read of it.
    pub(crate) owed: Due,
    pub(crate) flags: Flags,
    ghost few: { stopped ≡ None → stream.records < most_records },
}

impl<D> Connection<D> {
    ghost use Rattle.connections.specs.Connections.{due_of, flagged, now_of, number_of, owing};
    ghost use Rattle.connections.specs.Connections.{most_counted, records_of, room_owed};
    ghost use Rattle.connections.specs.Connections.{stopped_of, IsStopped};
    ghost use Rattle.std.specs.Prelude.{◌↔◌, ◌≤◌, [], false, IsTrue};

    /// The number of the connection.
    pub fn number(&self) -> ConnectionNumber
        ensures { result.0 ≡ number_of self.now }
    {
        self.stream.connection
    }

    /// Whether no more of it is read.
    pub fn is_stopped(&self) -> bool
        ensures { IsTrue result ↔ IsStopped self.now }
    {
        self.stopped.is_some()
    }

    /// Why no more of it is read, if it isn't.
    pub fn stopped(&self) -> Option<Stopped>
        ensures { result ≡ stopped_of self.now }
    {
        self.stopped
    }

    /// Whether nothing more is written to it.
    pub fn is_broken(&self) -> bool
        ensures { result ≡ self.now.is_broken }
    {
        self.is_broken
    }

    /// Whether bytes were read that aren't cut into records yet.
    pub fn has_kept(&self) -> bool
        ensures { (result ≡ false) ↔ (self.now.kept ≡ []) }
    {
        !self.kept.is_empty()
    }

    /// Whether bytes of replies wait that the device had no room for.
    pub fn has_rest(&self) -> bool
        ensures { (result ≡ false) ↔ (self.now.rest ≡ []) }
    {
        !self.rest.is_empty()
    }

    /// What is owed for its records whose replies weren't taken to be written yet, as far as this
    /// was counted.
    pub fn due(&self) -> Due
        ensures { result ≡ due_of self.now }
    {
        self.owed
    }

    /// About how much room its replies take, with the bytes that the device had no room for.
    pub fn owed(&self) -> usize
        ensures { result ≡ room_owed self.now }
    {
        self.owed.room.saturating_add(self.rest.len())
    }

    /// So much is owed.
    pub fn set_owed(&mut self, owed: Due)
        ensures owed { self.new ≡ owing owed self.old }
        ensures records { records_of self.new ≤ most_counted }
    {
        // That they fit their type is known of what is read.
        let _records = self.stream.records;
        self.owed = owed;
    }

    /// What the thread keeps of it.
    pub fn flags(&self) -> Flags
        ensures { result ≡ self.now.flags }
    {
        self.flags
    }

    /// Keeps that.
    pub fn set_flags(&mut self, flags: Flags)
        ensures { self.new ≡ flagged flags self.old }
    {
        self.flags = flags;
    }

    /// The device. What waits for it is lost.
    pub fn into_device(self) -> D
        ensures { result ≡ now_of self }
    {
        let Connection {
            device,
            stream: _,
            kept: _,
            rest: _,
            stopped: _,
            is_broken: _,
            opened: _,
            owed: _,
            flags: _,
        } = self;
        device.into_device()
    }
}

impl<D: Device> Connection<D> {
    ghost use Rattle.std.specs.Prelude.{[]};
    ghost use Rattle.rpc_msg.specs.declared.offer.Offer.{Offer};
    ghost use Rattle.connections.specs.Connections.{calls_to, due_of, nothing_due};
    ghost use Rattle.connections.specs.Connections.{now_of, number_of, peer_of};
    ghost use Rattle.connections.specs.Reading.{Reads};
    ghost use Rattle.connections.specs.Writing.{Writes};

    /// A connection to a peer over a device of which nothing was read and to which nothing was
    /// written.
    pub fn new(alloc: Global, device: D, peer: Peer, number: ConnectionNumber) -> Connection<D>
        ensures device { now_of result ≡ device }
        ensures opened { result.opened.value ≡ device }
        ensures number { number_of result ≡ number.0 }
        ensures peer { peer_of result ≡ peer }
        ensures calls { calls_to result ≡ 0 }
        ensures reads { (offer : Offer) → Reads offer D.unread device result [] }
        ensures writes { Writes D.written device result [] [] }
        ensures owed { due_of result ≡ nothing_due }
    {
        let opened = Snapshot::of(&device);
        Connection {
            device: Watched::new(device),
            stream: Stream {
                alloc,
                connection: number,
                peer,
                reassembler: Reassembler::new(alloc),
                records: 0,
            },
            kept: Backlog::new(alloc),
            rest: Rest::new(alloc),
            stopped: None,
            is_broken: false,
            opened,
            owed: Due::nothing(),
            flags: Flags {
                is_readable: false,
                is_closing: false,
                is_blocked: false,
                has_ended: false,
                is_listed: false,
            },
        }
    }
}
