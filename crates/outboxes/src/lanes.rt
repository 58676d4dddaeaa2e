//! Numbers of connections, by lanes.

ghost use Rattle.std.specs.Prelude.{◌≢◌, ℕ};
ghost use Rattle.outboxes.specs.Boxes.{IsNumberOf};

/// No two of the lanes of one run have a number in common.
pub fn lanes_are_apart()
    ensures { (lanes lane other : ℕ) (number number' : ℕ)
        → lane ≢ other
        → IsNumberOf lane lanes number
        → IsNumberOf other lanes number'
        → number ≢ number' }
{}
