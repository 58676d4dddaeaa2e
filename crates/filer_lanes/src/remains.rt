//! What is left of lanes that were put together.

ghost use Rattle.depot.specs.Words.{view, HasNoGrant};
ghost use Rattle.depot_rule.specs.History.{entries_of, AreHands};
ghost use Rattle.turns.specs.Jobs.{job_takes, job_gives};

use depot::Seat;
use granted_calls::Envelope;
use turns::{BatchInHand, Service};

/// What is left of lanes: their seats as one, the batches in their hands, the messages that they
/// kept and those that waited in their queues. The batches are all that the seat's calls took and
/// didn't give; and the seat has no open grant.
pub(crate) struct Remains {
    pub(crate) seat: Seat<Service>,
    pub(crate) hands: Vec<BatchInHand>,
    pub(crate) kept: Vec<Envelope>,
    pub(crate) waiting: Vec<Envelope>,
    pub(crate) ghost in_hand: { AreHands job_takes job_gives (entries_of (view seat)) hands.items },
    pub(crate) ghost none_open: { HasNoGrant seat },
}
