//! Touches of a file: its latest writes, stripe by stripe.

ghost use Rattle.std.specs.Prelude.{◌≡◌, ◌≤◌, is_some};
ghost use Rattle.std.specs.FinMap.{get};
ghost use Rattle.std.specs.Option.{option_map};
ghost use Rattle.nfs_model.specs.Shown.{moment_le, same_moment};
ghost use Rattle.nfs_values.specs.Moment.{moment_of};
ghost use Rattle.parcels.specs.Filled.{logical_alike};
ghost use Rattle.nfs_model.specs.volume.Stripes.{touch_of, touch_taken};
ghost use Rattle.nfs_values.specs.Ownership.{ownership_of};
ghost use Rattle.filer_state.specs.state.Changes.{
  stripe_settled,
  stripes_settled,
  touches_taken,
};
ghost use Rattle.filer_state.specs.state.Sets.{logical_before, logical_after, stripe_value};
ghost use Rattle.filer_state.specs.state.Tree.{file_touch, later};

use filer_state::Files;
use nfs_values::{Fileid, Moment, Ownership};
use parcels::{LogicalHeld, StripeHeld};

/// The latest touch of a file in the stripes of its volume.
pub(crate) fn latest_touch(held: &LogicalHeld<Files>, fileid: Fileid) -> Option<Moment>
    requires few { held.now.own.stripes ≤ 16 }
    ensures { option_map moment_of result
        ≡ file_touch (logical_before held.now).stripes fileid.0 }
{
    let mut touch = None;
    let mut left = held.own.get().stripes as usize;
    while left > 0 {
        left -= 1;
        touch = later(touch_in(&held.stripes.at[left], fileid), touch);
    }
    touch
}

/// Takes the touches of a file in the stripes of its volume, and tells the latest. It takes no
/// memory.
pub fn take_touches(held: &mut LogicalHeld<Files>, fileid: Fileid) -> Option<Moment>
    requires few { held.old.own.stripes ≤ 16 }
    ensures latest { option_map moment_of result
        ≡ file_touch (logical_before held.old).stripes fileid.0 }
    ensures taken { (logical_after held.old held.new).stripes
        ≡ touches_taken fileid.0 (logical_before held.old).stripes }
    ensures own { held.new.own ≡ held.old.own }
    ensures alike { logical_alike held.old held.new }
{
    let mut touch = None;
    let mut left = held.own.get().stripes as usize;
    while left > 0 {
        left -= 1;
        touch = later(take_touch(&mut held.stripes.at[left], fileid), touch);
    }
    touch
}

/// Takes the touches of a node in the stripes of its volume, where its cards get an owner. It takes
/// no memory.
pub(crate) fn settle_stripes(held: &mut LogicalHeld<Files>, fileid: Fileid, owner: Ownership)
    requires few { held.old.own.stripes ≤ 16 }
    ensures settled { (logical_after held.old held.new).stripes
        ≡ stripes_settled fileid.0 (ownership_of owner) (logical_before held.old).stripes }
    ensures own { held.new.own ≡ held.old.own }
    ensures alike { logical_alike held.old held.new }
{
    let mut left = held.own.get().stripes as usize;
    while left > 0 {
        left -= 1;
        settle_place(&mut held.stripes.at[left], fileid, owner);
    }
}

/// Takes the touch of a node in the stripe in a place, where its card gets an owner.
fn settle_place(place: &mut Option<StripeHeld<Files>>, fileid: Fileid, owner: Ownership)
    ensures settled { stripe_value place.new
        ≡ stripe_settled fileid.0 (ownership_of owner) (stripe_value place.old) }
    ensures alike { is_some place.new ≡ is_some place.old }
{
    match place {
        Some(stripe) => {
            let own = stripe.own.get_mut();
            own.take_touch(fileid);
            own.set_owner(fileid, owner);
        }
        None => {}
    }
}

/// Takes the touch of a file in the stripe in a place.
fn take_touch(place: &mut Option<StripeHeld<Files>>, fileid: Fileid) -> Option<Moment>
    ensures touch { option_map moment_of result
        ≡ touch_of (get (stripe_value place.old).cards fileid.0) }
    ensures taken { stripe_value place.new ≡ touch_taken fileid.0 (stripe_value place.old) }
    ensures alike { is_some place.new ≡ is_some place.old }
{
    match place {
        Some(stripe) => stripe.own.get_mut().take_touch(fileid),
        None => None,
    }
}

/// The touch of a file in the stripe in a place.
fn touch_in(place: &Option<StripeHeld<Files>>, fileid: Fileid) -> Option<Moment>
    ensures { option_map moment_of result
        ≡ touch_of (get (stripe_value place.now).cards fileid.0) }
{
    match place {
        Some(stripe) => stripe.own.get().touch(fileid),
        None => None,
    }
}

/// The later of two touches.
fn later(one: Option<Moment>, other: Option<Moment>) -> Option<Moment>
    ensures { option_map moment_of result
        ≡ later (option_map moment_of one) (option_map moment_of other) }
{
    let Some(first) = one else {
        return other;
    };
    let Some(second) = other else {
        return one;
    };
    if is_no_later(first, second) {
        Some(second)
    } else {
        Some(first)
    }
}

/// Whether two moments are one.
pub fn is_same(one: Moment, other: Moment) -> bool
    ensures { result ≡ same_moment (moment_of one) (moment_of other) }
{
    one.seconds == other.seconds && one.nanoseconds == other.nanoseconds
}

/// Whether a moment is no later than another.
fn is_no_later(one: Moment, other: Moment) -> bool
    ensures { result ≡ moment_le (moment_of one) (moment_of other) }
{
    one.seconds < other.seconds
        || one.seconds == other.seconds && one.nanoseconds <= other.nanoseconds
}
