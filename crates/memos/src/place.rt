//! Places.

ghost use Rattle.std.specs.Prelude.{◌≡◌, ◌<◌, ◌&&◌, None, IfSome, IfNone};
ghost use Rattle.nfs_model.specs.Serial.Once.{change_of, is_recent, place};
ghost use Rattle.nfs_model.specs.Serial.Same.{same_caller};
ghost use Rattle.nfs_values.specs.Call.{call_of};
ghost use Rattle.nfs_values.specs.Caller.{caller_of};
ghost use Rattle.nfs_values.specs.Moment.{moment_of};
ghost use Rattle.memos.specs.Kept.{asks, change_kept, memo_kept};

use crate::change::KeptChange;
use crate::results::Results;
use crate::same::is_same_caller;
use nfs_values::{Call, Caller, Moment};

/// How long a reply is told again, in seconds (our profile).
const SECONDS_RECENT: u64 = 120;

/// A place for a call and its results.
#[derive(Clone, Copy)]
pub(crate) struct Place {
    pub(crate) caller: Caller,
    /// When it was done.
    pub(crate) moment: Moment,
    pub(crate) change: KeptChange,
    pub(crate) results: Results,
}

/// Whether a call that was done at one moment is remembered at another: no later than this, and at
/// most 120 seconds before.
fn is_recent(made: Moment, moment: Moment) -> bool
    ensures { result ≡ is_recent (moment_of made) (moment_of moment) }
{
    let last = u64::from(made.seconds) + SECONDS_RECENT;
    let now = u64::from(moment.seconds);
    let is_past = made.seconds < moment.seconds
        || made.seconds == moment.seconds && made.nanoseconds <= moment.nanoseconds;
    is_past && (now < last || now == last && moment.nanoseconds <= made.nanoseconds)
}

impl Place {
    /// A place where nothing is remembered.
    pub(crate) fn empty() -> Place
        ensures { memo_kept result ≡ None }
    {
        Place {
            caller: Caller::NOBODY,
            moment: Moment::START,
            change: KeptChange::NONE,
            results: Results::EMPTY,
        }
    }

    /// Whether it has this call of this caller, and recently.
    pub(crate) fn is_of(&self, caller: &Caller, call: &Call, moment: Moment) -> bool
        ensures { result ≡ (same_caller (caller_of self.now.caller) (caller_of caller.now)
            && is_recent (moment_of self.now.moment) (moment_of moment))
            && asks (change_kept self.now.change) (change_of (call_of call.now)) }
    {
        is_same_caller(&self.caller, caller)
            && is_recent(self.moment, moment)
            && self.change.is_of(call)
    }
}

/// The place of a caller's call among so many, if there are any, by its port and xid.
#[tactic(auto, using(crate::proofs::Peers::port_of_peer))]
pub(crate) fn place_of(caller: &Caller, places: usize) -> Option<usize>
    ensures within { IfSome result (λ at. at < places) }
    ensures place { IfSome result (λ at. at ≡ place places (caller_of caller.now)) }
    ensures none { IfNone result (places ≡ 0) }
{
    if places == 0 {
        return None;
    }
    let number = u64::from(caller.peer.port) + u64::from(caller.xid);
    Some((number % places as u64) as usize)
}
