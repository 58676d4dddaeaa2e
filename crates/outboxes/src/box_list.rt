//! Outboxes by the numbers of their connections.

ghost use Rattle.std.specs.Prelude.{
  ◌≡◌,
  ◌≤◌,
  [],
  None,
  ℕ,
  drop,
  IfNone,
  IfSome,
  IfOk,
  OnErr,
  OnOk,
  IsTrue,
};
ghost use Rattle.std.specs.FinMap.{empty, get, insert, len, remove};
ghost use Rattle.nfs_model.specs.volume.Maps.{changed_at};
ghost use Rattle.outboxes.specs.Boxes.{first_in, with_last};
ghost use Rattle.outboxes.specs.Messages.{record_of};
ghost use Rattle.outboxes.specs.Places.{waiting_of, IsAt, Rise};

use crate::chain::Link;
use crate::outbox::Outbox;
use crate::record::Record;
use std::alloc::{AllocError, Global};
use std::marker::Model;

/// The outboxes of the connections that are open, in the order of their numbers. Mostly the one
/// that is asked for is that of the last time, or the one behind it.
#[derive(Drop)]
pub(crate) struct BoxList {
    list: Vec<(usize, Outbox)>,
    /// The place that was found last.
    last: usize,
}

impl Model for BoxList {
    ghost use Rattle.std.specs.Prelude.{List};
    ghost use Rattle.std.specs.Coded.{coded_ℕ, codes};
    ghost use Rattle.std.specs.FinMap.{FinMap};
    ghost use Rattle.std.specs.FinMap as maps;
    ghost use Rattle.std.specs.Ordering.{nat_cmp};
    ghost use Rattle.outboxes.specs.Messages.{ReplyMessage};
    ghost use Rattle.outboxes.specs.Places.{waiting_of, Rise};

    ghost Value = { FinMap nat_cmp (List ReplyMessage) };

    ghost coded = { maps.code coded_ℕ (Prim.hlevel (codes)) };

    ghost view = { λ b. waiting_of b.list.items };

    ghost invariant = { λ b. Rise 0 b.list.items };
}

impl BoxList {
    /// No connection. It takes no memory.
    pub(crate) fn new(alloc: Global) -> BoxList
        ensures { result ≡ empty }
    {
        BoxList {
            list: Vec::new(alloc),
            last: 0,
        }
    }

    /// How many connections there are.
    pub(crate) fn len(&self) -> usize
        ensures { result ≡ len self.now }
    {
        self.list.len()
    }

    /// Adds a connection, for which nothing waits, under a number above all others.
    pub(crate) fn open(&mut self, number: usize) -> Result<(), AllocError>
        requires { (q : ℕ) → number ≤ q → get self.old q ≡ None }
        ensures ok { OnOk result (self.new ≡ insert self.old number []) }
        ensures err { OnErr result (self.new ≡ self.old) }
    {
        Ok(self.list.push((number, Outbox::new()))?)
    }

    /// Removes a connection, if it is there, and drops what waits for it.
    pub(crate) fn shut(&mut self, number: usize)
        ensures { self.new ≡ remove self.old number }
    {
        if let Some(place) = place_of(&self.list, &mut self.last, number) {
            self.list.remove(place);
        }
    }

    /// Puts a record behind what waits for a connection, if that is there. It takes no memory.
    pub(crate) fn put(&mut self, number: usize, link: Box<Link>)
        requires { link.value.bytes.items ≡ record_of link.value.numbered }
        ensures { self.new ≡ changed_at (with_last link.value.numbered) number self.old }
    {
        if let Some(place) = place_of(&self.list, &mut self.last, number) {
            self.list[place].1.put(link);
        }
    }

    /// Takes the oldest record that waits for a connection, if that is there. It takes no memory.
    pub(crate) fn take(&mut self, number: usize) -> Option<Record>
        ensures record { result ≡ first_in (get self.old number) }
        ensures rest { self.new ≡ changed_at (drop 1) number self.old }
    {
        match place_of(&self.list, &mut self.last, number) {
            Some(place) => self.list[place].1.take(),
            None => None,
        }
    }
}

/// Where the outbox of a number is, if there is one: at the last place, behind it, or elsewhere.
fn place_of(list: &[(usize, Outbox)], last: &mut usize, number: usize) -> Option<usize>
    requires { Rise 0 list.now }
    ensures place { IfSome result (IsAt list.now number) }
    ensures none { IfNone result (get (waiting_of list.now) number ≡ None) }
{
    if is_at(list, *last, number) {
        return Some(*last);
    }
    let next = last.wrapping_add(1);
    if is_at(list, next, number) {
        *last = next;
        return Some(next);
    }
    match search(list, number) {
        Ok(place) => {
            *last = place;
            Some(place)
        }
        Err(_) => None,
    }
}

/// Whether the outbox of a number is at a place.
fn is_at(list: &[(usize, Outbox)], place: usize, number: usize) -> bool
    ensures { IsTrue result → IsAt list.now number place }
{
    match list.get(place) {
        Some(entry) => entry.0 == number,
        None => false,
    }
}

/// Where the outbox of a number is, by halving.
#[inline(never)]
fn search(list: &[(usize, Outbox)], number: usize) -> Result<usize, usize>
    requires { Rise 0 list.now }
    ensures place { IfOk result (IsAt list.now number) }
    ensures none { OnErr result (get (waiting_of list.now) number ≡ None) }
{
    list.binary_search_by_key(&number, |entry| entry.0)
}
