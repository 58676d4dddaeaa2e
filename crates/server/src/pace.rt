//! What a lane's thread keeps between its rounds: its tends, and how long it waits.

ghost use Rattle.std.specs.Prelude.{◌<◌};

use nfs_values::Moment;
use std::rt::Clock;
use tends::{Patience, Tending, time_now};

/// How often in a row a call may move before the lane waits as for what another has.
const MOST_MOVES: u32 = 2;

/// What a lane's thread keeps between its rounds.
pub(crate) struct Pace {
    pub(crate) tending: Tending,
    pub(crate) patience: Patience,
    /// How many turns in a row came to a move.
    moves: u32,
    /// Whether a call moved since calls were last finished under Volume.
    has_moved: bool,
    /// How many calls that may leave blocks were admitted when no message waited last.
    pub(crate) left: u64,
    /// When the round began.
    last: Moment,
    ghost last_is: { last.nanoseconds < 1000000000 },
}

// By hand, as those of what is in it.
impl Drop for Pace {
    fn drop(self) {
        let Pace {
            tending: _,
            patience: _,
            moves: _,
            has_moved: _,
            left: _,
            last: _,
        } = self;
    }
}

impl Pace {
    /// Before the first round.
    pub(crate) fn new() -> Pace {
        Pace {
            tending: Tending::new(),
            patience: Patience::new(),
            moves: 0,
            has_moved: false,
            left: 0,
            last: Moment::START,
        }
    }

    /// The time at which a round begins.
    pub(crate) fn time<R: Clock>(&mut self, rt: &R) -> Moment
        ensures { result.nanoseconds < 1000000000 }
    {
        self.last = time_now(rt, self.last);
        self.last
    }

    /// A call was finished.
    pub(crate) fn finish(&mut self) {
        self.moves = 0;
        self.patience = Patience::new();
    }

    /// A call was refused what another has: whether to try at once again.
    pub(crate) fn refuse(&mut self) -> bool {
        self.patience.pause()
    }

    /// A call has to run elsewhere: whether to try at once there.
    pub(crate) fn move_on(&mut self) -> bool {
        self.has_moved = true;
        if self.moves < MOST_MOVES {
            self.moves += 1;
            return true;
        }
        self.patience.pause()
    }

    /// Calls were finished under Volume. Answers whether a call moved since that was so last: if
    /// none did they were at home there.
    pub(crate) fn take_move(&mut self) -> bool {
        let has_moved = self.has_moved;
        self.has_moved = false;
        has_moved
    }
}
