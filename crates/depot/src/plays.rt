//! The kinds of step, each by what it tells its seat.

use crate::table::ViewsOf;
use atomic_table::{Join, Play, Split};
use depot_rule::machine::Machine;
use depot_rule::view::Views;
use std::marker::PhantomData;

/// A share in the word of a node above the one that is wanted.
pub struct Enter;

impl<P, E> Play<Option<P>, Views<P, E>> for Enter {
    ghost use Rattle.depot_rule.specs.Plays.{EnterSays};

    ghost then = { EnterSays };
}

/// A share that was entered in vain is left.
pub struct BackOut;

impl<P, E> Play<Option<P>, Views<P, E>> for BackOut {
    ghost use Rattle.depot_rule.specs.Plays.{BackOutSays};

    ghost then = { BackOutSays };
}

/// The share that was entered last is left.
pub struct Leave;

impl<P, E> Play<Option<P>, Views<P, E>> for Leave {
    ghost use Rattle.depot_rule.specs.Plays.{LeaveSays};

    ghost then = { LeaveSays };
}

/// The node itself is claimed.
pub struct Claim<M> {
    machine: PhantomData<M>,
}

impl<M: Machine> Play<Option<M::Parcel>, ViewsOf<M>> for Claim<M> {
    ghost use Rattle.depot_rule.specs.History.{behaviour};
    ghost use Rattle.depot_rule.specs.Plays.{ClaimSays};

    ghost then = { ClaimSays M.Parcel.kind (behaviour M.steps M.takes M.gives M.invariant) };
}

/// The claim is given up.
pub struct Release;

impl<P, E> Play<Option<P>, Views<P, E>> for Release {
    ghost use Rattle.depot_rule.specs.Plays.{ReleaseSays};

    ghost then = { ReleaseSays };
}

/// A slot goes out with its parcel.
pub struct Fetch;

impl<P, E> Play<Option<P>, Views<P, E>> for Fetch {
    ghost use Rattle.depot_rule.specs.Plays.{FetchSays};

    ghost then = { FetchSays };
}

/// It comes home empty.
pub struct Empty;

impl<P, E> Play<Option<P>, Views<P, E>> for Empty {
    ghost use Rattle.depot_rule.specs.Plays.{EmptySays};

    ghost then = { EmptySays };
}

/// A slot goes out empty.
pub struct Reach;

impl<P, E> Play<Option<P>, Views<P, E>> for Reach {
    ghost use Rattle.depot_rule.specs.Plays.{ReachSays};

    ghost then = { ReachSays };
}

/// It comes home with its parcel.
pub struct Fill;

impl<P, E> Play<Option<P>, Views<P, E>> for Fill {
    ghost use Rattle.depot_rule.specs.Plays.{FillSays};

    ghost then = { FillSays };
}

/// The ticket is looked at.
pub struct Look;

impl<P, E> Play<Option<P>, Views<P, E>> for Look {
    ghost use Rattle.depot_rule.specs.Plays.{LookSays};

    ghost then = { LookSays };
}

/// What was stamped is granted anew, by the right of a look.
pub struct Renew<M> {
    machine: PhantomData<M>,
}

impl<M: Machine> Play<Option<M::Parcel>, ViewsOf<M>> for Renew<M> {
    ghost use Rattle.depot_rule.specs.History.{behaviour};
    ghost use Rattle.depot_rule.specs.Plays.{RenewSays};

    ghost then = { RenewSays (behaviour M.steps M.takes M.gives M.invariant) };
}

/// Two seats that met are found to be alike.
pub struct Alike;

impl<P, E> Play<Option<P>, Views<P, E>> for Alike {
    ghost use Rattle.depot_rule.specs.Plays.{AlikeSays};

    ghost then = { AlikeSays };
}

/// A second seat is split off.
pub struct SplitOff;

impl<P, E> Split<Views<P, E>> for SplitOff {
    ghost use Rattle.depot_rule.specs.Seats.{parted, fresh_of};

    ghost left = { parted };

    ghost right = { fresh_of };
}

/// Two seats become one.
pub struct Merge;

impl<P, E> Join<Views<P, E>> for Merge {
    ghost use Rattle.std.specs.Prelude.{[]};
    ghost use Rattle.depot_rule.specs.Seats.{merged};

    ghost both = { merged };

    ghost spent = { [] };
}

/// Two seats meet: their views lie side by side.
pub struct Meet;

impl<P, E> Join<Views<P, E>> for Meet {
    ghost use Rattle.std.specs.Prelude.{[], ◌++◌};

    ghost both = { λ vs ws. vs ++ ws };

    ghost spent = { [] };
}

/// Seats that met part again, each with the longer history of the two.
pub struct PartAgain;

impl<P, E> Split<Views<P, E>> for PartAgain {
    ghost use Rattle.depot_rule.specs.Seats.{first_of, others_of};

    ghost left = { first_of };

    ghost right = { others_of };
}
