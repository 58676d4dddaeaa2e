//! The messages that wait.

ghost use Rattle.std.specs.Prelude.{
  ◌≡◌,
  ◌+◌,
  ◌<◌,
  ◌≤◌,
  ◌==◌,
  ◌↔◌,
  [],
  ◌∷◌,
  ◌++◌,
  length,
  Some,
  IfOk,
  IfErr,
  OnOk,
  OnErr,
  IsErr,
  option_copied,
};
ghost use Rattle.std.specs.List.{slice_get, remove};
ghost use Rattle.affinity.specs.Affinity.{call_node};
ghost use Rattle.scheduler.specs.QueueNumber.{HasQueue};
ghost use Rattle.scheduler.specs.Waiting.{IsFirstOf, IsFront, TakesFront};

use crate::cells::{append, cell_at, first_used, make_room, place_of, take_out};
use crate::lines::{CELLS, Lines};
use crate::message::Message;
use crate::queue_number::queue_of;
use affinity::CallNode;
use std::alloc::{AllocError, Global};
use std::marker::Model;

/// How many messages may wait.
pub const MOST_WAITING: usize = 1_024;

/// There are 1,024 messages already. It has the message that found no place.
#[derive(Drop)]
pub struct Full<C> {
    pub message: Message<C>,
}

/// The list has no such place.
#[derive(Clone, Copy)]
pub struct NoSuchCall;

impl<C> Full<C> {
    /// The number by which the refusal is told.
    pub fn number(&self) -> u32
        ensures { result ≡ 31 }
    {
        31
    }
}

impl NoSuchCall {
    /// The number by which the refusal is told.
    pub fn number(self) -> u32
        ensures { result ≡ 32 }
    {
        32
    }
}

/// At most 1,024 messages that wait, one list in the order of their arrival. Only `new` takes
/// memory.
#[derive(Drop)]
pub struct Waiting<C> {
    /// A message's cell number is its order number. All are numbered anew where the cells run out.
    messages: Vec<Option<Message<C>>>,
    lines: Lines,
    count: usize,
    /// Where the cells in use begin.
    start: usize,
}

impl<C> Model for Waiting<C> {
    ghost use Rattle.std.specs.Prelude.{◌≤◌, List, vec_capacity};
    ghost use Rattle.scheduler.specs.declared.message.Message.{Message};

    ghost Value = { List (Message C) };

    ghost use Rattle.scheduler.specs.Kept.{present, AreKept};

    ghost view = { λ w. present w.messages.items };

    ghost invariant = { λ w. AreKept w.messages.items w.lines w.count w.start
        × (2048 ≤ vec_capacity w.messages) };
}

impl<C: Drop> Waiting<C> {
    /// No message, and room for 1,024.
    pub fn new(alloc: Global) -> Result<Waiting<C>, AllocError>
        ensures { IfOk result (λ waiting. waiting ≡ []) }
    {
        Ok(Waiting {
            messages: Vec::with_capacity(alloc, CELLS)?,
            lines: Lines::new(alloc)?,
            count: 0,
            start: 0,
        })
    }

    /// How many messages wait.
    pub fn len(&self) -> usize
        ensures count { result ≡ length self.now }
        ensures most { result ≤ 1024 }
    {
        self.count
    }

    /// Whether no message waits.
    pub fn is_empty(&self) -> bool
        ensures { result ≡ (length self.now == 0) }
    {
        self.count == 0
    }

    /// Lets a message wait after all others, where fewer than 1,024 do.
    pub fn admit(&mut self, message: Message<C>) -> Result<(), Full<C>>
        requires { HasQueue (call_node message.affinity) }
        ensures ok { OnOk result (self.new ≡ self.old ++ message ∷ []) }
        ensures full { IsErr result ↔ (length self.old ≡ 1024) }
        ensures back { IfErr result (λ full. full.message ≡ message) }
        ensures err { OnErr result (self.new ≡ self.old) }
    {
        if self.count == MOST_WAITING {
            return Err(Full { message });
        }
        self.put_back(message);
        Ok(())
    }

    /// Lets a message wait again, after all others.
    pub fn put_back(&mut self, message: Message<C>)
        requires place { length self.old < 1024 }
        requires queue { HasQueue (call_node message.affinity) }
        ensures { self.new ≡ self.old ++ message ∷ [] }
    {
        self.start = make_room(&mut self.messages, &mut self.lines, self.start);
        append(&mut self.messages, &mut self.lines, message);
        self.count += 1;
    }

    /// Takes the message at a place of the list, from 0 on. It goes over the cells once.
    pub fn pick(&mut self, place: usize) -> Result<Message<C>, NoSuchCall>
        ensures message { IfOk result (λ m. slice_get self.old place ≡ Some m) }
        ensures rest { OnOk result (self.new ≡ remove self.old place) }
        ensures none { IsErr result ↔ (length self.old ≤ place) }
        ensures err { OnErr result (self.new ≡ self.old) }
    {
        if place >= self.count {
            return Err(NoSuchCall);
        }
        let cell = cell_at(&self.messages, self.start, place);
        let message = take_out(&mut self.messages, &mut self.lines, cell);
        self.count -= 1;
        self.start = first_used(&self.messages, self.start);
        Ok(message)
    }

    /// The message at a place of the list, from 0 on. It goes over the cells once.
    pub fn get(&self, place: usize) -> Option<&Message<C>>
        ensures { option_copied result ≡ slice_get self.now place }
    {
        if place >= self.count {
            return None;
        }
        let cell = cell_at(&self.messages, self.start, place);
        self.messages[cell].as_ref()
    }

    /// The smallest place whose message tries an affinity. It goes over the cells once.
    pub fn first_of(&self, affinity: CallNode) -> Option<usize>
        requires { HasQueue (call_node affinity) }
        ensures { IsFirstOf affinity self.now result }
    {
        let cell = self.lines.first(queue_of(affinity))?;
        Some(place_of(&self.messages, self.start, cell))
    }

    /// The message at the smallest place that tries an affinity, and how many cells were looked
    /// at, in constant time.
    pub fn front_counted(&self, affinity: CallNode) -> (Option<&Message<C>>, usize)
        requires { HasQueue (call_node affinity) }
        ensures front { IsFront affinity self.now (option_copied result.0) }
        ensures looked { result.1 ≤ 1 }
    {
        match self.lines.first(queue_of(affinity)) {
            Some(cell) => (self.messages[cell].as_ref(), 1),
            None => (None, 0),
        }
    }

    /// Takes the message at the smallest place that tries an affinity, in constant time but for
    /// vacant cells, each of which is passed over once.
    pub fn pick_front(&mut self, affinity: CallNode) -> Option<Message<C>>
        requires { HasQueue (call_node affinity) }
        ensures { TakesFront affinity self.old result self.new }
    {
        let cell = self.lines.first(queue_of(affinity))?;
        let message = take_out(&mut self.messages, &mut self.lines, cell);
        self.count -= 1;
        self.start = first_used(&self.messages, self.start);
        Some(message)
    }
}
