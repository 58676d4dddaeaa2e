//! What the tests do with a depot.

ghost use Rattle.depot.specs.Words.{IsSeatHere};

use crate::counters::{Found, One, attempt, attempt_any};
use affinity::{Affinity, Kind};
use depot::trial::adding::{Adding, all_of, open, split, touches, volumes};
use depot::{Depot, Seat};
use parcels::{SerialNode, StripeNode};
use std::alloc::Global;
use std::mem;
use std::process::Abort;
use std::sync::atomic::{AtomicBool, Ordering};

/// Looks whether this is what a row of this name wants.
pub fn same<T: PartialEq>(rt: &impl Abort, row: &str, found: &T, wanted: &T) {
    assert!(rt; found == wanted, "{row}");
}

/// A depot with four volumes in which each parcel is 0, and its first seat.
pub fn opened(rt: &(impl Abort + AllocGlobal)) -> (Depot<Adding>, Seat<Adding>)
    ensures { IsSeatHere result.0 result.1 }
{
    open::<4>(rt.alloc()).expect(rt, "no depot")
}

/// Such a depot, and two seats of it.
pub fn two_seats(rt: &(impl Abort + AllocGlobal)) -> (Depot<Adding>, Seat<Adding>, Seat<Adding>)
    ensures first { IsSeatHere result.0 result.1 }
    ensures second { IsSeatHere result.0 result.2 }
{
    let (depot, seat) = opened(rt);
    let (one, other) = split(&depot, seat).expect(rt, "no split is left");
    (depot, one, other)
}

/// The root's parcel of a depot whose seat was split and joined again, and which was then closed.
pub fn close_joined(rt: &impl Abort, alloc: Global) -> u64 {
    let layout = volumes::<2>(alloc).expect(rt, "no layout");
    let parcels = all_of(alloc, &layout, 0).expect(rt, "no memory");
    let Ok((depot, seat)) = Depot::<Adding>::new::<SerialNode>(alloc, layout, parcels) else {
        panic!(rt; "no memory");
    };
    let Ok((one, other)) = depot.split_seat(seat) else {
        panic!(rt; "no split is left");
    };
    let seat = depot.join_seat(one, other);
    let held = depot.close::<SerialNode>(seat);
    let own = held.own;
    mem::forget(held);
    own
}

/// How many seats can be split off, up to this many, and the number of the refusal after these.
pub fn splits(depot: &Depot<Adding>, mut seat: Seat<Adding>, most: usize) -> (usize, u32)
    requires seat { IsSeatHere depot.now seat }
{
    for made in 0..most {
        match depot.split_seat(seat) {
            Ok((first, _second)) => seat = first,
            Err(refused) => return (made, refused.number()),
        }
    }
    (most, 0)
}

/// One of two seats.
#[derive(Clone, Copy)]
pub(crate) enum Who {
    One,
    Other,
}

/// Which seat claims a node for good, and what comes of it.
pub(crate) type Claim = (Who, Affinity, Found);

/// Claims a node for good by one of two seats.
fn claim_by(
    depot: &Depot<Adding>,
    one: &mut Seat<Adding>,
    other: &mut Seat<Adding>,
    who: Who,
    affinity: Affinity,
) -> Option<Found>
    requires one { IsSeatHere depot.now one.old }
    requires other { IsSeatHere depot.now other.old }
    ensures one { IsSeatHere depot.now one.new }
    ensures other { IsSeatHere depot.now other.new }
{
    match who {
        Who::One => attempt_any(depot, one, affinity, true).err(),
        Who::Other => attempt_any(depot, other, affinity, true).err(),
    }
}

/// Claims nodes of a new depot, one after the other, and looks what comes of each.
pub(crate) fn claim_all(rt: &(impl Abort + AllocGlobal), row: &str, claims: &[Claim]) {
    let (depot, mut one, mut other) = two_seats(rt);
    for (who, affinity, wanted) in claims {
        let found = claim_by(&depot, &mut one, &mut other, *who, *affinity);
        same(rt, row, &found, &Some(*wanted));
    }
    mem::forget((depot, one, other));
}

/// The parcel of a stripe, by a call that ends without an entry.
pub fn look(depot: &Depot<Adding>, seat: &mut Seat<Adding>, affinity: Affinity) -> Option<u64>
    requires seat { IsSeatHere depot.now seat.old }
    ensures seat { IsSeatHere depot.now seat.new }
{
    if affinity.kind() != Kind::Stripe {
        return None;
    }
    if !depot.layout().contains(affinity) {
        return None;
    }
    match depot.begin::<StripeNode>(seat, affinity) {
        Ok(mut grant) => {
            let found = grant.held().own;
            depot.put_back(seat, grant);
            Some(found)
        }
        Err(_) => None,
    }
}

/// How often a thread looks for the other's flag.
const LOOKS: u32 = 10_000_000;

/// Whether another thread comes too.
fn meets(mine: &AtomicBool, other: &AtomicBool) -> bool {
    mine.store(true, Ordering::SeqCst);
    for _ in 0..LOOKS {
        if other.load(Ordering::SeqCst) {
            return true;
        }
    }
    false
}

/// Claims a stripe for good, and waits for the other thread to have claimed its own; then makes
/// calls on another stripe. Whether the other came, and how many calls were granted.
pub fn holds_beside(
    depot: &Depot<Adding>,
    mut seat: Seat<Adding>,
    stripes: [Affinity; 2],
    mine: &AtomicBool,
    other: &AtomicBool,
) -> (bool, u32)
    requires seat { IsSeatHere depot.now seat }
{
    let [held, called] = stripes;
    let claimed = attempt::<StripeNode, One>(depot, &mut seat, held, true);
    let is_met = matches!(claimed, Err(Found::Granted)) && meets(mine, other);
    (is_met, touches::<StripeNode>(depot, seat, called, 10))
}
