ghost use Rattle.std.specs.Prelude.{◌≡◌, ◌≤◌, ◌<◌, ◌++◌, List, ℕ, length, take, Option, Some, None};
ghost use Rattle.std.specs.Prelude.{IsSome, IfSome, ◌+◌, ◌∷◌, []};
ghost use Rattle.rpc_record.specs.Machine.{State, start, outcome, IsMore};
ghost use Rattle.rpc_record.specs.Stream.{read_stream};
ghost use Rattle.rpc_record.specs.Records.{BeginsWith};
ghost use Rattle.rpc_record.specs.Feeds.{Feeds, GoesOn, Foresees, HasCome, Says, GivesNothing};
ghost use Rattle.rpc_record.specs.Feeds.{given, look_at, LookAgrees, step_number, look_number};
ghost use Rattle.rpc_record.specs.declared.reassembler.Step.{Step};
ghost use Rattle.rpc_record.specs.declared.reassembler.Step.TheVariants as steps;

use crate::framing::first_record;
use crate::join::join;
use crate::position::{Position, Turn};
use std::alloc::Global;
use std::marker::Model;
use std::mem;

/// What bytes that were fed led to.
#[derive(Drop)]
pub enum Step {
    /// The bytes taken end a record, whose data this is.
    Record(Vec<u8>),
    /// All bytes were taken, and no record is whole yet.
    More,
    /// The bytes taken end in a header that brings the record above the limit.
    Fault,
    /// No memory was there for the data, and no byte was taken.
    NoMemory,
}

impl Step {
    /// The number by which a fault, 11, or want of memory, 90, is told.
    pub fn number(&self) -> Option<u32>
        ensures { result ≡ step_number self.now }
    {
        match self {
            Step::Record(_) | Step::More => None,
            Step::Fault => Some(11),
            Step::NoMemory => Some(90),
        }
    }
}

/// What bytes would lead to.
#[derive(Clone, Copy)]
pub enum Look {
    /// They would end a record.
    Record,
    /// All would be taken, and no record would be whole.
    More,
    /// They would end in a header that brings the record above the limit.
    Fault,
}

impl Look {
    /// The number by which a fault is told, 11.
    pub fn number(self) -> Option<u32>
        ensures { result ≡ look_number self }
    {
        match self {
            Look::Record | Look::More => None,
            Look::Fault => Some(11),
        }
    }
}

/// Puts the records of a stream together, however it is cut (RFC 5531, section 11).
#[derive(Drop)]
pub struct Reassembler {
    alloc: Global,
    joined: Vec<u8>,
    position: Position,
    failed: bool,
}

impl Model for Reassembler {
    ghost use Rattle.std.specs.Prelude.{◌≡◌, vec_len, Option, Some, None, if◌then◌else◌};
    ghost use Rattle.rpc_record.specs.Machine.{State};

    ghost Value = { Option State };

    ghost use Rattle.rpc_record.specs.Position.{state, IsPosition};

    ghost view = { λ r. if r.failed then None else Some (state r.joined.items r.position) };

    ghost invariant = { λ r. IsPosition r.position × (vec_len r.joined ≡ r.position.joined) };
}

impl Reassembler {
    /// At a stream's beginning.
    pub fn new(alloc: Global) -> Reassembler
        ensures { result ≡ Some start }
    {
        Reassembler {
            alloc,
            joined: Vec::new(alloc),
            position: Position::START,
            failed: false,
        }
    }

    /// Takes bytes up to the end of at most one record, or up to the first header at fault. Once
    /// that was told, it takes nothing and tells it again.
    pub fn feed(&mut self, bytes: &[u8]) -> (usize, Step)
        // By bytes, one after another.
        ensures feeds { Feeds self.old bytes.now result.0 result.1 self.new }
        ensures within { result.0 ≤ length bytes.now }
        ensures fewer { (n : ℕ) → n < result.0 → IsMore (outcome self.old (take n bytes.now)) }
        ensures nothing { IsMore (outcome self.old bytes.now) → GivesNothing result.1 }
        ensures failed { self.old ≡ None → (result ≡ (0, steps.Fault)) × (self.new ≡ None) }

        // Of what has come since the last record, in the standard's words.
        ensures says { (came : List ℕ) → HasCome came self.old
            → Says came bytes.now result.0 result.1 self.new }

        // Of a whole stream that the caller keeps.
        ensures reads { (stream : List ℕ) → (read_stream stream).at ≡ self.old
            → read_stream (stream ++ take result.0 bytes.now)
            ≡ record { records = (read_stream stream).records ++ given result.1; at = self.new } }
        ensures goes_on { (stream : List ℕ) (n : ℕ) → (read_stream stream).at ≡ self.old
            → n < result.0 → GoesOn stream (take n bytes.now) }
    {
        if self.failed {
            return (0, Step::Fault);
        }
        self.advance(bytes)
    }

    /// The record that bytes begin with as one fragment, where nothing has come since the last
    /// record: what `feed` would answer to them, of which it would take 4 bytes more. It lies where
    /// it is, and takes no memory. `None` of all other bytes.
    pub fn whole<'a>(&self, bytes: &'a [u8]) -> Option<&'a [u8]>
        ensures begins { IfSome result (λ made. (self.now ≡ Some start)
            × BeginsWith made.now bytes.now) }
        ensures none { result ≡ None → self.now ≡ Some start
            → (made : List ℕ) → BeginsWith made bytes.now → ⊥ }

        // Of a whole stream that the caller keeps.
        ensures reads { IfSome result (λ made. (stream : List ℕ)
            → (read_stream stream).at ≡ self.now
            → read_stream (stream ++ take (4 + length made.now) bytes.now)
            ≡ record {
              records = (read_stream stream).records ++ made.now ∷ [];
              at = self.now;
            }) }
    {
        if self.failed || !self.joined.is_empty() || !self.position.is_start() {
            return None;
        }
        first_record(bytes)
    }

    /// Feeds bytes where no fault was told.
    fn advance(&mut self, bytes: &[u8]) -> (usize, Step)
        requires { IsSome self.old }
        ensures { Feeds self.old bytes.now result.0 result.1 self.new }
    {
        let size = self.joined.len();
        let position = self.position;
        let Ok((taken, turn)) = join(&mut self.joined, &mut self.position, bytes) else {
            self.joined.truncate(size);
            self.position = position;
            return (0, Step::NoMemory);
        };
        match turn {
            Turn::Goes => (taken, Step::More),
            Turn::Ends => {
                self.position = Position::START;
                let record = mem::replace(&mut self.joined, Vec::new(self.alloc));
                (taken, Step::Record(record))
            }
            Turn::Faults => {
                self.failed = true;
                self.position = Position::START;
                self.joined = Vec::new(self.alloc);
                (taken, Step::Fault)
            }
        }
    }

    /// Tells what `feed` would take of these bytes, and what it would answer if memory is there.
    pub fn look(&self, bytes: &[u8]) -> (usize, Look)
        // By bytes, one after another.
        ensures looks { result ≡ look_at bytes.now (outcome self.now bytes.now) }
        ensures within { result.0 ≤ length bytes.now }
        ensures fewer { (n : ℕ) → n < result.0 → IsMore (outcome self.now (take n bytes.now)) }

        // Of what `feed` takes of the same bytes and answers, want of memory aside.
        ensures tells { (taken : ℕ) (step : Step) (new : Option State)
            → Feeds self.now bytes.now taken step new → LookAgrees result taken step }

        // Of a whole stream that the caller keeps.
        ensures foresees { (stream : List ℕ) → (read_stream stream).at ≡ self.now
            → Foresees stream bytes.now result.0 result.1 }
        ensures goes_on { (stream : List ℕ) (n : ℕ) → (read_stream stream).at ≡ self.now
            → n < result.0 → GoesOn stream (take n bytes.now) }
    {
        if self.failed {
            return (0, Look::Fault);
        }
        self.look_ahead(bytes)
    }

    /// Looks where no fault was told.
    fn look_ahead(&self, bytes: &[u8]) -> (usize, Look)
        requires { IsSome self.now }
        ensures { result ≡ look_at bytes.now (outcome self.now bytes.now) }
    {
        match self.position.walk(bytes) {
            (taken, Turn::Goes) => (taken, Look::More),
            (taken, Turn::Ends) => (taken, Look::Record),
            (taken, Turn::Faults) => (taken, Look::Fault),
        }
    }
}
