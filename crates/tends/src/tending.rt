//! What a worker does for no message, and when its thread may sleep.

ghost use Rattle.std.specs.Prelude.{◌≡◌};
ghost use Rattle.tends.specs.Rests.{found_by, may_sleep};
ghost use Rattle.granted_calls.specs.Filers.{layout_in};

use granted_calls::Filer;
use turns::{TendRefusal, Tended, Worker};

/// The tends that look at all there is of one volume: at each of its 16 ranges a fetch, with a
/// cull before it.
const TENDS_OF_VOLUME: usize = 32;

/// What a tend found.
#[derive(Clone, Copy)]
pub enum Found {
    /// It moved blocks.
    Blocks,
    /// There was nothing to do.
    Nothing,
    /// There was no memory to put down what is in the hand.
    NoMemory,
    /// Another has what it would look at.
    Busy,
}

/// What a worker's tends came to.
#[derive(Clone, Copy)]
pub struct Tending {
    /// How many were made with an empty hand, wrapping at 2^64.
    pub made: u64,
    /// How many in a row, up to now, moved no block. It stops at the last value. Who has a node
    /// that a tend found taken tends itself once it has no message.
    pub unchanged: usize,
    /// Whether the last lacked memory.
    pub starved: bool,
}

/// What a tend found, by its answer.
pub fn found_by(answer: Result<Tended, TendRefusal>) -> Found
    ensures { result ≡ found_by answer }
{
    match answer {
        Ok(tended) => {
            if tended.count() == 0 {
                Found::Nothing
            } else {
                Found::Blocks
            }
        }
        Err(TendRefusal::Busy { .. }) => Found::Busy,
        Err(TendRefusal::NoMemory) => Found::NoMemory,
        Err(TendRefusal::Worn) => Found::Nothing,
        Err(TendRefusal::HandFull) => Found::Nothing,
        Err(TendRefusal::HandEmpty) => Found::Nothing,
        Err(TendRefusal::NoSuchRange) => Found::Nothing,
    }
}

impl Tending {
    ghost use Rattle.tends.specs.Rests.{IsCounted};

    /// None was made.
    pub fn new() -> Tending
        ensures { result.unchanged ≡ 0 }
    {
        Tending {
            made: 0,
            unchanged: 0,
            starved: false,
        }
    }

    /// A call was finished, and may have left something to tend.
    pub fn begin_anew(&mut self)
        ensures { self.new ≡ record self.old { unchanged = 0 } }
    {
        self.unchanged = 0;
    }

    /// Counts a tend, which was made with an empty hand or not.
    pub fn count(&mut self, empty: bool, found: Found)
        ensures { IsCounted self.old empty found self.new }
    {
        if empty {
            self.made = self.made.wrapping_add(1);
        }
        match found {
            Found::Blocks => {
                self.unchanged = 0;
                self.starved = false;
            }
            Found::Nothing => {
                self.unchanged = self.unchanged.saturating_add(1);
                self.starved = false;
            }
            Found::NoMemory => {
                self.unchanged = self.unchanged.saturating_add(1);
                self.starved = true;
            }
            Found::Busy => {
                self.unchanged = self.unchanged.saturating_add(1);
                self.starved = false;
            }
        }
    }

    /// Whether the thread of the worker may sleep: in a row, tends over all volumes and ranges
    /// moved nothing, and no batch is in its hand, or there was no memory to put it down.
    pub fn may_sleep(&self, filer: &Filer, worker: &Worker) -> bool
        ensures { result ≡ may_sleep (layout_in filer.now) worker.now self.now }
    {
        let all = filer.depot().layout().volume_count() * TENDS_OF_VOLUME;
        self.unchanged >= all && (self.starved || worker.has_empty_hand())
    }
}
