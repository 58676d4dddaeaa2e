//! The end of a filer.

ghost use Rattle.std.specs.Prelude.{◌≡◌};
ghost use Rattle.depot.specs.Words.{view};
ghost use Rattle.depot_rule.specs.LookingBack.{HasAll};
ghost use Rattle.nfs_model.specs.Tree as trees;
ghost use Rattle.parcels.specs.Sets.{serial_parcels};
ghost use Rattle.granted_calls.specs.Filers.{layout_in, verifier_in};
ghost use Rattle.tends.specs.Ends.{log_in, HasEnded};
ghost use Rattle.tends.specs.Gathered.{IsLeftOf};

use crate::ended::Ended;
use crate::left::Left;
use granted_calls::Filer;
use parcels::SerialNode;

/// Ends a filer. Its parcels come back, with what its workers left. What their seat has seen is the
/// whole history.
pub fn close(filer: Filer, left: Left) -> Ended
    requires left { IsLeftOf filer left }
    ensures ended { let L = layout_in filer in HasEnded L (verifier_in filer)
        (serial_parcels L trees.Serial result.parcels) result.hands.items (log_in left) }
    ensures all { HasAll (view left.seat) (log_in left) }
    ensures hands { result.hands ≡ left.hands }
    ensures kept { result.kept ≡ left.kept }
    ensures waiting { result.waiting ≡ left.waiting }
{
    let Left {
        seat,
        hands,
        kept,
        waiting,
    } = left;
    Ended {
        parcels: filer.into_depot().close::<SerialNode>(seat),
        hands,
        kept,
        waiting,
    }
}
