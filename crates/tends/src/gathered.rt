//! Workers that were put together.

ghost use Rattle.depot.specs.Words.{view, HasNoGrant};
ghost use Rattle.depot_rule.specs.History.{entries_of, AreHands};
ghost use Rattle.tends.specs.Even.{IsEvenWith};
ghost use Rattle.turns.specs.Jobs.{job_takes, job_gives};
ghost use Rattle.granted_calls.specs.shared_waiting.Passes.{known};

use affinity::Layout;
use depot::Seat;
use granted_calls::Envelope;
use granted_calls::shared_waiting::Pass;
use turns::{BatchInHand, Service};

/// Workers as one: their seats, their passes, the batches in their hands and the messages that they
/// keep. Each message that the pass picked was finished by the seat, put back by the pass or is
/// kept, once for each time that it was picked; the batches are all that the seat's calls took and
/// didn't give; and the seat has no open grant.
pub(crate) struct Gathered {
    pub(crate) seat: Seat<Service>,
    pub(crate) pass: Pass<Envelope, Layout>,
    pub(crate) hands: Vec<BatchInHand>,
    pub(crate) kept: Vec<Envelope>,
    pub(crate) ghost balance: { IsEvenWith (known pass) (entries_of (view seat)) kept.items },
    pub(crate) ghost in_hand: { AreHands job_takes job_gives (entries_of (view seat)) hands.items },
    pub(crate) ghost none_open: { HasNoGrant seat },
}
