//! Grants of a depot: what excludes what, how many seats there are, and what one call leaves to the
//! next.

use crate::counters::Found;
use crate::trial::{
    Claim, Who, claim_all, close_joined, holds_beside, look, opened, same, splits, two_seats,
};
use affinity::Affinity;
use depot::trial::adding::{add, read, touch_on};
use depot::trial::lending;
use depot::trial::lending::{give, take};
use parcels::StripeNode;
use std::sync::atomic::AtomicBool;
use std::test::Fail;
use std::{mem, thread};

/// Stripe 2 of volume 0.
const STRIPE: Affinity = Affinity::Stripe {
    volume: 0,
    stripe: 2,
};

const OTHER_STRIPE: Affinity = Affinity::Stripe {
    volume: 0,
    stripe: 3,
};

/// The first and the second stripe.
const STRIPES: [Affinity; 2] = [
    Affinity::Stripe {
        volume: 0,
        stripe: 0,
    },
    Affinity::Stripe {
        volume: 0,
        stripe: 1,
    },
];

const RANGE: Affinity = Affinity::Range {
    volume: 0,
    range: 0,
};

const LOGICAL: Affinity = Affinity::VolumeLogical(0);

/// What one seat claims and then another beside it.
const CLAIMS: [(&str, &[Claim]); 2] = [
    (
        "beside a stripe",
        &[
            (Who::One, STRIPE, Found::Granted),
            (
                Who::Other,
                Affinity::Volume(0),
                Found::Busy(Affinity::Volume(0)),
            ),
            (Who::Other, Affinity::Serial, Found::Busy(Affinity::Serial)),
            (Who::Other, STRIPE, Found::Busy(STRIPE)),
            (Who::Other, OTHER_STRIPE, Found::Granted),
            (Who::Other, Affinity::VolumeLogical(1), Found::Granted),
            (Who::One, RANGE, Found::Granted),
        ],
    ),
    (
        "below a grant",
        &[
            (Who::One, LOGICAL, Found::Granted),
            (
                Who::Other,
                Affinity::Stripe {
                    volume: 0,
                    stripe: 0,
                },
                Found::Busy(LOGICAL),
            ),
            (
                Who::Other,
                Affinity::Stripe {
                    volume: 0,
                    stripe: 1,
                },
                Found::Busy(LOGICAL),
            ),
            (
                Who::Other,
                Affinity::Stripe {
                    volume: 0,
                    stripe: 2,
                },
                Found::Busy(LOGICAL),
            ),
            (
                Who::Other,
                Affinity::Stripe {
                    volume: 0,
                    stripe: 3,
                },
                Found::Busy(LOGICAL),
            ),
            (
                Who::Other,
                Affinity::Stripe {
                    volume: 0,
                    stripe: 4,
                },
                Found::Busy(LOGICAL),
            ),
            (
                Who::Other,
                Affinity::Stripe {
                    volume: 0,
                    stripe: 5,
                },
                Found::Busy(LOGICAL),
            ),
            (
                Who::Other,
                Affinity::Stripe {
                    volume: 0,
                    stripe: 6,
                },
                Found::Busy(LOGICAL),
            ),
            (
                Who::Other,
                Affinity::Stripe {
                    volume: 0,
                    stripe: 7,
                },
                Found::Busy(LOGICAL),
            ),
            (Who::Other, Affinity::VolumeVbn(0), Found::Granted),
        ],
    ),
];

#[test]
fn claims(rt: HostRuntime) {
    for (row, claims) in &CLAIMS {
        claim_all(&rt, row, claims);
    }
}

#[test]
fn seats(rt: HostRuntime) {
    let (depot, seat) = opened(&rt);
    let made = splits(&depot, seat, 100);
    mem::forget(depot);
    same(&rt, "seats", &made, &(63, 23));
}

#[test]
fn an_end(rt: HostRuntime) {
    same(&rt, "the root", &close_joined(&rt, rt.alloc()), &0);
}

#[test]
fn effects(rt: HostRuntime) {
    let (depot, mut one, mut other) = two_seats(&rt);
    let before = look(&depot, &mut one, STRIPE);
    let added = add(&depot, &mut one, STRIPE, 7);
    depot.meet(&mut one, &mut other);
    let after = look(&depot, &mut other, STRIPE);
    let told = read(&depot, &mut other, STRIPE);
    let beside = look(&depot, &mut other, OTHER_STRIPE);
    mem::forget((depot, one, other));
    same(&rt, "beside", &[before, beside], &[Some(0), Some(0)]);
    same(
        &rt,
        "added",
        &[added, after, told],
        &[Some(7), Some(7), Some(7)],
    );
}

#[test]
fn lent_tokens(rt: HostRuntime) -> Result<(), Fail> {
    let (depot, mut seat) = lending::open(rt.alloc())?;
    assert!(rt; take(&depot, &mut seat, STRIPE, 5));
    let given = give(&depot, &mut seat, OTHER_STRIPE, 5);
    let missing = take(&depot, &mut seat, STRIPE, 5);
    let left = take(&depot, &mut seat, STRIPE, 2);
    let moved = take(&depot, &mut seat, OTHER_STRIPE, 12);
    mem::forget((depot, seat));
    same(
        &rt,
        "given, missing, left and moved",
        &[given, missing, left, moved],
        &[true, false, true, true],
    );
    Ok(())
}

/// Each holds a stripe beside the other's, and then makes calls on another beside the other's.
#[test]
fn two_threads(rt: HostRuntime) {
    let (depot, one, other) = two_seats(&rt);
    let held = &depot;
    let (first, second) = (AtomicBool::new(false), AtomicBool::new(false));
    let [called, beside] = STRIPES;
    let found = thread::join(
        &rt,
        || holds_beside(held, one, [STRIPE, called], &first, &second),
        || holds_beside(held, other, [OTHER_STRIPE, beside], &second, &first),
    );
    mem::forget(depot);
    same(&rt, "threads", &found, &((true, 10), (true, 10)));
}

#[test]
fn calls_under_one_grant(rt: HostRuntime) {
    let (depot, mut seat) = opened(&rt);
    let [called, _] = STRIPES;
    let sum = add(&depot, &mut seat, called, 5);
    same(&rt, "sum", &sum, &Some(5));
    let made = touch_on::<StripeNode>(&depot, &mut seat, called, 9);
    same(&rt, "calls", &made, &10);
    let found = read(&depot, &mut seat, called);
    same(&rt, "found", &found, &Some(5));
    mem::forget((depot, seat));
}
