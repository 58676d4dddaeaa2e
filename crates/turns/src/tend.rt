//! What a worker does for no message, on the batch of block numbers in its hand.

ghost use Rattle.std.specs.Prelude.{◌≡◌};

use affinity::Affinity;
use nfs_values::VolumeNumber;
use service::{BatchInHand, BatchReply};

/// What a worker may do with its hand (our profile).
#[derive(Clone, Copy)]
pub enum Tend {
    /// Free blocks of a range come into its empty hand: the 64 lowest, or all where they are fewer.
    Fetch { volume: VolumeNumber, range: u32 },
    /// Blocks that files have left come into its empty hand: the 64 lowest of one range, or all of
    /// them where they are fewer.
    Cull { volume: VolumeNumber },
    /// What is in its hand is put down: blocks that it fetched in the stock of their volume, blocks
    /// that it culled in their range, where they are free.
    PutDown,
}

/// What a tend came to that was not refused.
#[derive(Clone, Copy)]
pub enum Tended {
    /// This many blocks came into the hand.
    InHand { count: u32 },
    /// This many blocks were put down.
    PutDown { count: u32 },
}

impl Tended {
    ghost use Rattle.turns.specs.Tends.{blocks_moved};

    /// How many blocks went anywhere: 0 where there was none to fetch or to cull.
    pub fn count(self) -> u32
        ensures { result ≡ blocks_moved self }
    {
        match self {
            Tended::InHand { count } => count,
            Tended::PutDown { count } => count,
        }
    }
}

/// Why a tend was refused. No block went anywhere then.
#[derive(Clone, Copy)]
pub enum TendRefusal {
    /// The word of a node was found taken.
    Busy { node: Affinity, word: u64 },
    /// 2^62 calls were finished.
    Worn,
    /// The hand has to be empty, and is not.
    HandFull,
    /// There is nothing in the hand to put down.
    HandEmpty,
    /// There is no such volume, or no such range of it is in use.
    NoSuchRange,
    /// Memory ran out, or the stock has no room for more.
    NoMemory,
}

impl TendRefusal {
    ghost use Rattle.turns.specs.Tends.{tend_refusal_number};

    /// The number by which the refusal is told.
    pub fn number(self) -> u32
        ensures { result ≡ tend_refusal_number self }
    {
        match self {
            TendRefusal::Busy { .. } => 21,
            TendRefusal::Worn => 22,
            TendRefusal::HandFull => 33,
            TendRefusal::HandEmpty => 34,
            TendRefusal::NoSuchRange => 41,
            TendRefusal::NoMemory => 90,
        }
    }
}

/// What came of an inner call on a seat.
pub(crate) enum Carried {
    /// It is finished by an entry with this reply, and this was told of a stock: whether it has
    /// enough numbers.
    Done(BatchReply, Option<bool>),
    /// There is no entry, and the hand is as it was.
    Refused(BatchInHand, TendRefusal),
}
