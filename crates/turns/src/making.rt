//! Workers, made.

use crate::worker::Worker;
use affinity::Layout;
use depot::Seat;
use granted_calls::Envelope;
use granted_calls::shared_waiting::Pass;
use parcels::Hand;
use service::{BatchInHand, Service};

impl Worker {
    ghost use Rattle.std.specs.Prelude.{◌≡◌, [], None};
    ghost use Rattle.depot.specs.Words.{view, HasNoGrant};
    ghost use Rattle.depot_rule.specs.History.{entries_of, AreHands};
    ghost use Rattle.nfs_model.specs.Parts as parts;
    ghost use Rattle.service.specs.Jobs.{job_takes, job_gives};
    ghost use Rattle.granted_calls.specs.shared_waiting.Passes.{known};
    ghost use Rattle.granted_calls.specs.Balance.{IsEven};
    ghost use Rattle.turns.specs.Tends.{stocked_in};

    /// A worker with an empty hand that keeps nothing and knows of no stock: whatever its pass
    /// picked, its seat finished or its pass put back.
    pub fn new(seat: Seat<Service>, pass: Pass<Envelope, Layout>) -> Worker
        requires balance { IsEven (known pass) (entries_of (view seat)) None }
        requires in_hand { AreHands job_takes job_gives (entries_of (view seat)) [] }
        requires none_open { HasNoGrant seat }
        ensures seat { result.seat ≡ seat }
        ensures pass { result.pass ≡ pass }
        ensures hand { result.hand ≡ parts.Empty }
        ensures kept { result.kept ≡ None }
        ensures stocked { stocked_in result ≡ None }
    {
        Worker {
            seat,
            pass,
            hand: BatchInHand::new(Hand::Empty),
            kept: None,
            stocked: None,
        }
    }
}
