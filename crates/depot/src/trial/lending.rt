//! A machine for tests, whose calls move tokens between a node's parcel and the seat's hand.

ghost use Rattle.std.specs.Prelude.{◌≡◌, true, false, ℕ, List, [], ◌∷◌, IfOk};
ghost use Rattle.depot_rule.specs.History.{entries_of};
ghost use Rattle.depot.specs.Words.{view, IsSeatHere};
ghost use Rattle.depot.specs.trial.Lending.{IsHand};

use crate::trial::adding::{all_of, is_node_of, volumes};
use crate::{Depot, Seat};
use affinity::{Affinity, Kind};
use depot_rule::machine::Machine;
use parcels::{Numbers, Parcel, SerialNode, StripeNode};
use std::alloc::{AllocError, Global};

/// A call on the tokens of its node.
#[derive(Clone, Copy)]
pub enum Move {
    /// This many tokens go from the node's parcel into the hand, as one batch.
    Take(u64),
    /// A batch of this many tokens goes from the hand into the node's parcel.
    Give(u64),
}

/// Tokens, of which each node's parcel is a number.
pub struct Lending;

impl Machine for Lending {
    ghost use Rattle.depot.specs.trial.Lending.{Moves, taken_by, given_by, FewTokens};
    ghost use Rattle.depot.specs.trial.Lending.{moves-local, moves-keep};

    type Parcel = Parcel<Numbers>;

    type Call = Move;

    type Reply = ();

    type Batch = u64;

    ghost steps = { Moves };

    ghost takes = { taken_by };

    ghost gives = { given_by };

    ghost invariant = { FewTokens };

    ghost local = { moves-local };

    ghost keeps = { moves-keep };
}

/// A depot in which each node has 7 tokens, and its first seat, with nothing in its hand.
pub fn open(alloc: Global) -> Result<(Depot<Lending>, Seat<Lending>), AllocError>
    ensures seat { IfOk result (λ made. IsSeatHere made.0 made.1) }
    ensures hand { IfOk result (λ made. IsHand (view made.1) []) }
{
    let layout = volumes::<2>(alloc).ok_or(AllocError)?;
    let parcels = all_of(alloc, &layout, 7)?;
    match Depot::<Lending>::new::<SerialNode>(alloc, layout, parcels) {
        Ok(made) => Ok(made),
        Err(_) => Err(AllocError),
    }
}

/// Takes tokens of a stripe into the hand, as one batch. Whether it did: not where the stripe has
/// fewer, or where the call wasn't granted.
pub fn take(
    depot: &Depot<Lending>,
    seat: &mut Seat<Lending>,
    affinity: Affinity,
    count: u64,
) -> bool
    requires seat { IsSeatHere depot.now seat.old }
    ensures seat { IsSeatHere depot.now seat.new }
    ensures taken { result ≡ true → (hand : List ℕ)
        → IsHand (view seat.old) hand
        → IsHand (view seat.new) (count ∷ hand) }
    ensures kept { result ≡ false → entries_of (view seat.new) ≡ entries_of (view seat.old) }
{
    if !is_node_of(depot, Kind::Stripe, affinity) {
        return false;
    }
    match depot.begin::<StripeNode>(seat, affinity) {
        Ok(mut grant) => {
            let held = grant.held();
            if held.own < count {
                depot.put_back(seat, grant);
                return false;
            }
            held.own -= count;
            depot.finish(seat, grant, &Move::Take(count), &());
            true
        }
        Err(_refusal) => false,
    }
}

/// Gives a batch of this many tokens from the hand to a stripe. Whether it did: not where the call
/// wasn't granted.
pub fn give(
    depot: &Depot<Lending>,
    seat: &mut Seat<Lending>,
    affinity: Affinity,
    count: u64,
) -> bool
    requires seat { IsSeatHere depot.now seat.old }
    requires hand { (rest : List ℕ) × IsHand (view seat.old) (count ∷ rest) }
    ensures seat { IsSeatHere depot.now seat.new }
    ensures given { result ≡ true → (rest : List ℕ)
        → IsHand (view seat.old) (count ∷ rest)
        → IsHand (view seat.new) rest }
    ensures kept { result ≡ false → entries_of (view seat.new) ≡ entries_of (view seat.old) }
{
    if !is_node_of(depot, Kind::Stripe, affinity) {
        return false;
    }
    match depot.begin::<StripeNode>(seat, affinity) {
        Ok(mut grant) => {
            let held = grant.held();
            held.own += count;
            depot.finish(seat, grant, &Move::Give(count), &());
            true
        }
        Err(_refusal) => false,
    }
}
