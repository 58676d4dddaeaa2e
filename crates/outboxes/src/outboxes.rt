//! What waits for all connections.

ghost use Rattle.std.specs.Prelude.{
  ◌≡◌,
  ◌<◌,
  ◌≤◌,
  ◌↔◌,
  None,
  Err,
  length,
  ℕ,
  OnOk,
  OnErr,
  IfOk,
};
ghost use Rattle.std.specs.FinMap.{get};
ghost use Rattle.nfs_values.specs.Reply.{reply_of};
ghost use Rattle.outboxes.specs.Boxes.{addressed, most_bytes, IsFull};
ghost use Rattle.outboxes.specs.Boxes.{none_of, none_open, oldest, opened, put, shut, taken};
ghost use Rattle.outboxes.specs.Boxes.{most_numbers, most_open, AreOfLane, IsNumberOf};
ghost use Rattle.outboxes.specs.Messages.{message, record_of};
ghost use Rattle.outboxes.specs.declared.refusal.OpenRefusal.TheVariants as refusals;

use crate::addressed_record::AddressedRecord;
use crate::box_list::BoxList;
use crate::link::{blank, write};
use crate::record::Record;
use crate::refusal::OpenRefusal;
use crate::room::Room;
use nfs_values::{ConnectionNumber, Reply};
use std::alloc::{AllocError, Global};
use std::marker::Model;

/// The most connections that are open, where no other number is given.
const MOST_OPEN: usize = 64;

/// The most numbers that are given.
const MOST_NUMBERS: usize = 1 << 62;

/// Of how many records that went out the memory is kept.
const MOST_SPARE: usize = 1_024;

/// How many bytes each of these has room for at most: a READ of 4 KiB, and what stands before it.
const MOST_SPARE_BYTES: usize = 4_352;

/// The records that wait for each connection that is open.
pub struct Outboxes {
    alloc: Global,
    by_number: BoxList,
    /// The memory of records that went out, for those to come.
    spare: Vec<Room>,
    /// How many connections may be open.
    most: usize,
    next: usize,
    /// By how much each number is larger than the one before.
    step: usize,
}

// By hand, so that crates above have no proof of the drop of each of its parts.
impl Drop for Outboxes {
    fn drop(self) {
        let Outboxes {
            alloc: _,
            by_number: _,
            spare: _,
            most: _,
            next: _,
            step: _,
        } = self;
    }
}

impl Model for Outboxes {
    ghost use Rattle.std.specs.Coded.{codes};
    ghost use Rattle.outboxes.specs.Boxes.{Boxes, coded_boxes};

    ghost Value = { Boxes };

    ghost coded = { coded_boxes (Prim.hlevel (codes)) };

    ghost use Rattle.outboxes.specs.Tables.{boxes_of, NoneFrom, IsStep};

    ghost view = { λ o. boxes_of o.most o.next o.step o.by_number };

    ghost invariant = { λ o. NoneFrom o.next o.by_number × IsStep o.step };
}

impl Outboxes {
    /// No connection is open, and no number was given. At most 64 will be open.
    pub fn new(alloc: Global) -> Outboxes
        ensures { result ≡ none_open }
    {
        Outboxes::of_lane(alloc, 0, 1)
    }

    /// The outboxes of one of this many lanes: no connection is open, and numbers are given from
    /// the lane's own on, each larger by the count of lanes than the one before. So no two lanes
    /// give one number (`lanes_are_apart`). At most 64 connections will be open.
    pub fn of_lane(alloc: Global, lane: usize, lanes: usize) -> Outboxes
        requires lane { lane < lanes }
        requires few { lanes ≤ most_numbers }
        ensures none { result ≡ none_of most_open lane lanes }
        ensures lane { AreOfLane lane lanes result }
    {
        Outboxes::with_room_for(alloc, MOST_OPEN, lane, lanes)
    }

    /// The same, where this many connections may be open.
    pub fn with_room_for(alloc: Global, most: usize, lane: usize, lanes: usize) -> Outboxes
        requires lane { lane < lanes }
        requires few { lanes ≤ most_numbers }
        ensures none { result ≡ none_of most lane lanes }
        ensures lane { AreOfLane lane lanes result }
        ensures most { result.most ≡ most }
    {
        Outboxes {
            alloc,
            by_number: BoxList::new(alloc),
            spare: Vec::new(alloc),
            most,
            next: lane,
            step: lanes,
        }
    }

    /// Opens a connection, for which nothing waits. Numbers rise, so that none is given twice.
    /// `Full` where as many are open as may be, or 2^62 numbers were given.
    pub fn open(&mut self) -> Result<ConnectionNumber, OpenRefusal>
        ensures number { IfOk result (λ connection. connection.0 ≡ self.old.next) }
        ensures fresh { get self.old.waiting self.old.next ≡ None }
        ensures rises { self.old.next < (opened self.old).next }
        ensures ok { OnOk result (self.new ≡ opened self.old) }
        ensures err { OnErr result (self.new ≡ self.old) }
        ensures full { (result ≡ Err refusals.Full) ↔ IsFull self.old }
        ensures lane { (lane lanes : ℕ) → AreOfLane lane lanes self.old
            → IfOk result (λ connection. IsNumberOf lane lanes connection.0)
            × AreOfLane lane lanes self.new }
    {
        if self.by_number.len() >= self.most {
            return Err(OpenRefusal::Full);
        }
        let number = self.next;
        if number >= MOST_NUMBERS {
            return Err(OpenRefusal::Full);
        }
        match self.by_number.open(number) {
            Ok(()) => {
                self.next = number + self.step;
                Ok(ConnectionNumber(number))
            }
            Err(AllocError) => Err(OpenRefusal::NoMemory),
        }
    }

    /// Closes a connection and drops what waits for it. Nothing changes where the number isn't
    /// open.
    pub fn shut(&mut self, connection: ConnectionNumber)
        ensures { self.new ≡ shut connection.0 self.old }
    {
        self.by_number.shut(connection.0);
    }

    /// Room for a record of this many bytes (`rpc_msg::room_of_reply`), at most 131,072, in the
    /// memory of one that went out, if there is some.
    pub fn room(&mut self, bytes: usize) -> Result<Room, AllocError>
        requires { bytes ≤ most_bytes }
        ensures room { IfOk result (λ room. room ≡ bytes) }
        ensures same { self.new ≡ self.old }
    {
        match self.spare.pop() {
            Some(room) => room.widened(bytes),
            None => Room::new(self.alloc, bytes),
        }
    }

    /// Keeps the memory of a record that went out, for one to come: of at most 1,024 records, none
    /// of which has room for more than 4,352 bytes.
    pub fn give_back(&mut self, record: Record)
        ensures { self.new ≡ self.old }
    {
        if self.spare.len() < MOST_SPARE && record.room() <= MOST_SPARE_BYTES {
            // Where there is no memory for more, it is dropped.
            let _kept = self.spare.push(Room::of(record));
        }
    }

    /// Puts a record behind what waits for its connection. Nothing changes where that isn't open.
    /// It takes no memory.
    pub fn put(&mut self, reply: AddressedRecord)
        ensures { self.new ≡ put reply self.old }
    {
        let (connection, link) = reply.into_parts();
        self.by_number.put(connection.0, link);
    }

    /// Puts a reply behind what waits for a connection, with memory of its own, for a record that
    /// no worker answers. Nothing changes where the number isn't open, or where memory ran out.
    pub fn put_at_once(
        &mut self,
        connection: ConnectionNumber,
        xid: u32,
        reply: &Reply,
    ) -> Result<(), AllocError>
        requires { length (record_of (message xid (reply_of reply.now))) ≤ most_bytes }
        ensures ok { OnOk result (self.new
            ≡ put (addressed connection.0 (message xid (reply_of reply.now))) self.old) }
        ensures err { OnErr result (self.new ≡ self.old) }
    {
        let mut link = blank(self.alloc, 0)?;
        write(&mut link, xid, reply)?;
        self.by_number.put(connection.0, link);
        Ok(())
    }

    /// Takes the oldest record that waits for a connection: `None` where there is none, or where
    /// the number isn't open. It takes no memory.
    pub fn take(&mut self, connection: ConnectionNumber) -> Option<Record>
        ensures record { result ≡ oldest connection.0 self.old }
        ensures rest { self.new ≡ taken connection.0 self.old }
    {
        self.by_number.take(connection.0)
    }
}
