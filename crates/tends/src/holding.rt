//! The end of a filer that someone else has still.

ghost use Rattle.std.specs.Prelude.{IfOk, IfErr};
ghost use Rattle.depot.specs.Words.{view};
ghost use Rattle.depot_rule.specs.LookingBack.{HasAll};
ghost use Rattle.nfs_model.specs.Tree as trees;
ghost use Rattle.parcels.specs.Sets.{serial_parcels};
ghost use Rattle.granted_calls.specs.Filers.{layout_in, verifier_in};
ghost use Rattle.tends.specs.Ends.{granted_in, left_by, log_in};
ghost use Rattle.tends.specs.Ends.{HasEnded, IsSameRest, IsWornOut};
ghost use Rattle.tends.specs.Gathered.{IsLeftOf};

use crate::held::Held;
use crate::left::Left;
use affinity::Affinity;
use depot::GrantRefusal;
use granted_calls::Filer;
use parcels::SerialNode;

/// Ends a filer that someone else has still, so that it can't be closed: all its parcels are
/// granted to the only seat, and no call begins on them any more. Only where the ticket is worn
/// nothing is granted. What the seat has seen is the whole history. It takes no memory.
pub fn hold(filer: &Filer, left: Left) -> Result<Held, Left>
    requires left { IsLeftOf filer.now left }
    ensures held { let L = layout_in filer.now in IfOk result (λ held.
        HasEnded L (verifier_in filer.now)
        (serial_parcels L trees.Serial (granted_in held)) held.left.hands.items (log_in left)) }
    ensures worn { let L = layout_in filer.now in IfErr result (λ back.
        HasEnded L (verifier_in filer.now)
        (left_by L (view left.seat)) back.hands.items (log_in left)) }
    ensures worn_out { IfErr result (λ back. IsWornOut (log_in left)) }
    ensures all { HasAll (view left.seat) (log_in left) }
    ensures held_rest { IfOk result (λ held. IsSameRest left held.left) }
    ensures worn_rest { IfErr result (λ back. IsSameRest left back) }
{
    let Left {
        mut seat,
        hands,
        kept,
        waiting,
    } = left;
    let depot = filer.depot();
    depot.look_back(&mut seat);
    match depot.begin::<SerialNode>(&mut seat, Affinity::Serial) {
        Ok(grant) => Ok(Held {
            grant,
            left: Left {
                seat,
                hands,
                kept,
                waiting,
            },
        }),
        Err(GrantRefusal::Worn) => Err(Left {
            seat,
            hands,
            kept,
            waiting,
        }),
        Err(GrantRefusal::Busy { node: _, word: _ }) => unreachable!(),
    }
}
