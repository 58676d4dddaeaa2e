//! When calls run that change something.

ghost use Rattle.std.specs.Prelude.{◌≡◌, ◌≤◌, IfSome};
ghost use Rattle.granted_calls.specs.Moments as moments;
ghost use Rattle.granted_calls.specs.Moments.{nanoseconds_at, RunsAt};

use nfs_values::{Call, Moment, NANOSECONDS_OF_A_SECOND};
use std::sync::atomic::{AtomicU64, Ordering};

/// How often a moment is tried for that another takes meanwhile.
const MOST_TRIES: u32 = 64;

/// The latest moment that a call of a filer took which changes something, in nanoseconds.
pub(crate) struct Moments {
    latest: AtomicU64,
}

// By hand, so that crates above have no proof of the drop of each of its parts.
impl Drop for Moments {
    fn drop(self) {
        let Moments { latest: _ } = self;
    }
}

/// How many nanoseconds have passed at a moment.
fn nanoseconds_of(moment: Moment) -> u64
    ensures { result ≡ nanoseconds_at moment }
{
    let second = u64::from(NANOSECONDS_OF_A_SECOND);
    u64::from(moment.seconds) * second + u64::from(moment.nanoseconds)
}

/// The moment at which so many nanoseconds have passed, if there is one.
fn moment_at(nanoseconds: u64) -> Option<Moment>
    ensures { IfSome result (λ moment. nanoseconds_at moment ≡ nanoseconds) }
{
    let second = u64::from(NANOSECONDS_OF_A_SECOND);
    match u32::try_from(nanoseconds / second) {
        Ok(seconds) => Some(Moment {
            seconds,
            nanoseconds: (nanoseconds % second) as u32,
        }),
        Err(_) => None,
    }
}

/// Whether a call changes what the server has.
fn is_change(call: &Call) -> bool
    ensures { result ≡ moments.is_change call.now }
{
    matches!(
        call,
        Call::SetAttributes { .. }
            | Call::Write { .. }
            | Call::Create { .. }
            | Call::MakeDirectory { .. }
            | Call::MakeSymbolicLink { .. }
            | Call::MakeDevice { .. }
            | Call::Remove(_)
            | Call::RemoveDirectory(_)
            | Call::Rename { .. }
            | Call::MakeLink { .. }
    )
}

impl Moments {
    /// None was taken since this moment, at which the run began.
    pub(crate) fn after(begun: Moment) -> Moments {
        Moments {
            latest: AtomicU64::new(nanoseconds_of(begun)),
        }
    }

    /// The greater of this number and of one past the latest that was taken, which is the latest
    /// from then on.
    fn take(&self, least: u64) -> u64
        ensures { least ≤ result }
    {
        let mut latest = self.latest.load(Ordering::SeqCst);
        for _ in 0..MOST_TRIES {
            let next = least.max(latest.saturating_add(1));
            match self
                .latest
                .compare_exchange(latest, next, Ordering::SeqCst, Ordering::SeqCst)
            {
                Ok(_) => return next,
                Err(other) => latest = other,
            }
        }
        let latest = self.latest.fetch_add(1, Ordering::SeqCst);
        least.max(latest.saturating_add(1))
    }

    /// When a call runs that has its grant: at this moment; or where it changes something no
    /// earlier, and later than all such calls before.
    pub(crate) fn of_call(&self, call: &Call, least: Moment) -> Moment
        ensures { RunsAt call.now least result }
    {
        if !is_change(call) {
            return least;
        }
        let taken = self.take(nanoseconds_of(least));
        moment_at(taken).unwrap_or(least)
    }
}
