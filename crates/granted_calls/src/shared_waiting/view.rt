//! What a pass of a queue knows, and the rule.

ghost use Rattle.std.specs.Prelude.{◌≡◌, Option};

use crossbeam_queue::protocol::{Join, Lesson, Outcome, Protocol, Split};
use std::collections::LinkedList;
use std::marker::{Brand, PhantomData};

/// What waits in a queue of a key.
pub trait Fitting<K>: Sized {
    // What each message of the queue is held to.
    ghost fits: { K → Self → Type 0 };
}

/// What a pass has put and picked, its share of the right to know the whole (`share` parts of
/// 1 / 2^halvings), and the queue's key, the same in each pass. No value of it is made.
pub struct View<T, K> {
    pub share: u64,
    pub halvings: u64,
    pub put: LinkedList<T>,
    pub picked: LinkedList<T>,
    pub key: Option<K>,
}

/// What went in came out or is there, and fits.
pub struct Fair;

impl<T: Fitting<K>, K> Protocol<T, View<T, K>> for Fair {
    ghost use Rattle.granted_calls.specs.shared_waiting.Balance.{Balanced, opening};

    ghost holds = { Balanced T.fits };

    ghost first = { opening };
}

/// The key of a queue, which one call picks.
pub trait Named<K> {
    ghost name: { Option K };
}

impl<K> Named<K> for Brand {
    ghost use Rattle.std.specs.Prelude.{None};

    ghost name = { None };
}

/// The key is fixed, by the only pass; the other is spent.
pub struct Naming<J> {
    named: PhantomData<J>,
}

impl<T, K, J: Named<K>> Split<View<T, K>> for Naming<J> {
    ghost use Rattle.granted_calls.specs.shared_waiting.Balance.{keyed, spent};

    ghost left = { keyed J.name };

    ghost right = { λ v. spent };
}

/// A pass that is cut in two: the second has put and picked nothing.
pub struct Cut;

impl<T, K> Split<View<T, K>> for Cut {
    ghost use Rattle.granted_calls.specs.shared_waiting.Balance.{left, right};

    ghost left = { left };

    ghost right = { right };
}

/// Two passes in one; the other is spent.
pub struct Glue;

impl<T, K> Join<View<T, K>> for Glue {
    ghost use Rattle.granted_calls.specs.shared_waiting.Balance.{both, spent};

    ghost both = { both };

    ghost spent = { spent };
}

/// A pass gives all that it has to a new one, and is spent.
pub struct Gives;

impl<T, K> Split<View<T, K>> for Gives {
    ghost use Rattle.granted_calls.specs.shared_waiting.Balance.{spent};

    ghost left = { λ v. spent };

    ghost right = { λ v. v };
}

/// A spent pass takes all that the other has; the other is spent.
pub struct Takes;

impl<T, K> Join<View<T, K>> for Takes {
    ghost use Rattle.granted_calls.specs.shared_waiting.Balance.{spent};

    ghost both = { λ v w. w };

    ghost spent = { spent };
}

/// What two passes know, which one call picks.
pub trait Pair<V> {
    ghost own: { V };

    ghost other: { V };
}

impl<T, K> Pair<View<T, K>> for Brand {
    ghost use Rattle.granted_calls.specs.shared_waiting.Balance.{opening};

    ghost own = { opening };

    ghost other = { opening };
}

/// A pass that took in the second of two is cut again: the first has what was added since, and the
/// second is as it was.
pub struct Parts<J> {
    pair: PhantomData<J>,
}

impl<T, K, J: Pair<View<T, K>>> Split<View<T, K>> for Parts<J> {
    ghost use Rattle.granted_calls.specs.shared_waiting.Balance.{grown};

    ghost left = { grown J.own J.other };

    ghost right = { λ v. J.other };
}

/// A message is put.
pub struct Puts;

impl<T, K> Outcome<T, View<T, K>> for Puts {
    ghost use Rattle.granted_calls.specs.shared_waiting.Balance.{added};

    ghost then = { λ v x w. w ≡ added v x };
}

impl<T, K> Lesson<T, View<T, K>> for Puts {
    ghost use Rattle.granted_calls.specs.shared_waiting.Balance.{Leaves};

    ghost fact = { Leaves };
}

/// A message is picked.
pub struct Picks;

impl<T: Fitting<K>, K> Outcome<T, View<T, K>> for Picks {
    ghost use Rattle.granted_calls.specs.shared_waiting.Balance.{taken, FitsIn};

    ghost then = { λ v x w. (w ≡ taken v x) × FitsIn T.fits v.key x };
}

impl<T, K> Lesson<T, View<T, K>> for Picks {
    ghost use Rattle.granted_calls.specs.shared_waiting.Balance.{Leaves};

    ghost fact = { Leaves };
}
