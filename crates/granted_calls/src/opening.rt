//! A filer at the start.

ghost use Rattle.std.specs.Prelude.{◌≡◌, Some, IfOk};
ghost use Rattle.affinity.specs.Layout.{layout_of};
ghost use Rattle.depot.specs.Words.{view, splits_left, IsSeatHere};
ghost use Rattle.granted_calls.specs.shared_waiting.Balance.{IsWhole};
ghost use Rattle.granted_calls.specs.shared_waiting.Passes.{known, IsOf};
ghost use Rattle.granted_calls.specs.Filers.{layout_in, layout_known, verifier_in};
ghost use Rattle.granted_calls.specs.Filers.{HasDoneNothing, IsReady};

use crate::envelope::Envelope;
use crate::moments::Moments;
use crate::shared::Filer;
use crate::shared_waiting::{Pass, SharedWaiting};
use affinity::Layout;
use depot::{Depot, Seat};
use filer_state::opening_parcels;
use nfs_values::Verifier;
use parcels::SerialNode;
use service::Service;
use std::alloc::{AllocError, Global};

/// A filer of a layout, with the write verifier of the run (writeverf3, RFC 1813 section 3.3.7),
/// and its first seat and pass: each is the only one, and has done nothing.
pub(crate) fn open(
    alloc: Global,
    layout: Layout,
    verifier: Verifier,
) -> Result<(Filer, Seat<Service>, Pass<Envelope, Layout>), AllocError>
    ensures layout { IfOk result (λ made. layout_in made.0 ≡ layout_of layout) }
    ensures verifier { IfOk result (λ made. verifier_in made.0 ≡ verifier.0) }
    ensures seat { IfOk result (λ made. IsSeatHere made.0.depot made.1) }
    ensures ready { IfOk result (λ made.
        IsReady (layout_in made.0) (verifier_in made.0) (view made.1)) }
    ensures only { IfOk result (λ made. splits_left made.1 ≡ 63) }
    ensures pass { IfOk result (λ made. IsOf made.0.waiting made.2
        × (layout_known (known made.2) ≡ Some (layout_in made.0))) }
    ensures whole { IfOk result (λ made. IsWhole (known made.2)) }
    ensures nothing { IfOk result (λ made. HasDoneNothing (view made.1) (known made.2)) }
{
    let begun = layout.begun_of(0);
    let parcels = opening_parcels(alloc, &layout, verifier)?;
    let Ok((depot, seat)) = Depot::<Service>::new::<SerialNode>(alloc, layout, parcels) else {
        return Err(AllocError);
    };
    let (waiting, pass) = SharedWaiting::new(alloc, depot.layout())?;
    let filer = Filer {
        alloc,
        verifier,
        depot,
        waiting,
        moments: Moments::after(begun),
    };
    Ok((filer, seat, pass))
}
