//! Files cut to a size, stripe by stripe.

ghost use Rattle.std.specs.Prelude.{◌≡◌, ◌-◌, length, is_some, map, IsSome};
ghost use Rattle.std.specs.FinMap.{get};
ghost use Rattle.std.specs.Option.{option_map};
ghost use Rattle.parcels.specs.Filled.{logical_alike};
ghost use Rattle.nfs_model.specs.volume.Ranges.{dead_marked};
ghost use Rattle.nfs_model.specs.volume.Stripes.{cut, file_card_set, numbers_freed};
ghost use Rattle.nfs_values.specs.Ownership.{ownership_of};
ghost use Rattle.filer_state.specs.changes.NodesSized.{all_freed};
ghost use Rattle.filer_state.specs.state.Sets.{logical_before, logical_after, stripe_value};
ghost use Rattle.stripes.specs.Numbers.{numbers};
ghost use Rattle.service_names.specs.Changing.{AreNumbers, MayBeSet, with_dead};
ghost use Rattle.service_names.specs.Shaping.{stripe_shaped};

use filer_state::{Files, LogicalParcel};
use nfs_values::{BlockNumber, Fileid, Ownership};
use parcels::{LogicalHeld, StripeHeld};
use stripe_cards::CardKind;
use stripes::{FreedBlocks, GiveBack, Stripe};
use vbn_ranges::DeadBlocks;

/// A file of more filled blocks has the memory of those that it loses given back later, as their
/// numbers come into use again: to give it back takes longer than all the rest of a cut.
const MANY_BLOCKS: u32 = 1024;

/// Sets a file to a size in the stripes of its volume; its blocks past it are dead then. Its cards
/// show the size and an owner, where that is given, and else stay. Of so many filled blocks it
/// tells how many are left. It needs no memory.
pub(crate) fn size_stripes(
    held: &mut LogicalHeld<Files>,
    fileid: Fileid,
    size: u64,
    owner: Option<Ownership>,
    filled: u32,
) -> u32
    requires { MayBeSet fileid.0 (logical_before held.old) }
    ensures left { result
        ≡ filled - length (all_freed fileid.0 size (logical_before held.old).stripes) }
    ensures own { held.new.own ≡ with_dead
        (all_freed fileid.0 size (logical_before held.old).stripes) held.old.own }
    ensures sized { (logical_after held.old held.new).stripes
        ≡ map (stripe_shaped fileid.0 size (option_map ownership_of owner))
        (logical_before held.old).stripes }
    ensures alike { logical_alike held.old held.new }
{
    let memory = if filled > MANY_BLOCKS {
        GiveBack::Later
    } else {
        GiveBack::AtOnce
    };
    let mut freed = FreedBlocks::new();
    let mut rest = filled;
    let mut left = held.own.get().stripes as usize;
    while left > 0 {
        left -= 1;
        rest = size_place(
            &mut held.stripes.at[left],
            &mut held.own,
            fileid,
            size,
            owner,
            rest,
            memory,
            &mut freed,
        );
    }
    rest
}

/// Sets a file to a size in the stripe in a place; no block leaves it where there is no stripe.
fn size_place(
    place: &mut Option<StripeHeld<Files>>,
    own: &mut LogicalParcel,
    fileid: Fileid,
    size: u64,
    owner: Option<Ownership>,
    filled: u32,
    memory: GiveBack,
    freed: &mut FreedBlocks,
) -> u32
    requires card { IsSome (get (stripe_value place.old).cards fileid.0) }
    requires numbers { AreNumbers own.old.dead.range_blocks
        (numbers_freed fileid.0 size (stripe_value place.old)) }
    ensures left { result
        ≡ filled - length (numbers_freed fileid.0 size (stripe_value place.old)) }
    ensures own { own.new
        ≡ with_dead (numbers_freed fileid.0 size (stripe_value place.old)) own.old }
    ensures sized { stripe_value place.new
        ≡ stripe_shaped fileid.0 size (option_map ownership_of owner) (stripe_value place.old) }
    ensures alike { is_some place.new ≡ is_some place.old }
{
    match place {
        Some(stripe) => {
            let dead = &mut own.get_mut().dead;
            size_stripe(
                stripe.own.get_mut(),
                dead,
                fileid,
                size,
                owner,
                filled,
                memory,
                freed,
            )
        }
        None => filled,
    }
}

/// Sets a file to a size in a stripe.
fn size_stripe(
    stripe: &mut Stripe,
    dead: &mut DeadBlocks,
    fileid: Fileid,
    size: u64,
    owner: Option<Ownership>,
    filled: u32,
    memory: GiveBack,
    freed: &mut FreedBlocks,
) -> u32
    requires card { IsSome (get stripe.old.cards fileid.0) }
    requires numbers { AreNumbers dead.old.range_blocks
        (numbers_freed fileid.0 size stripe.old) }
    ensures left { result ≡ filled - length (numbers_freed fileid.0 size stripe.old) }
    ensures dead { dead.new ≡ dead_marked (numbers_freed fileid.0 size stripe.old) dead.old }
    ensures sized { stripe.new
        ≡ stripe_shaped fileid.0 size (option_map ownership_of owner) stripe.old }
{
    stripe.take_touch(fileid);
    let left = cut_stripe(stripe, dead, fileid, size, filled, memory, freed);
    if let Some(owner) = owner {
        put_there(stripe, fileid, size, owner);
    }
    left
}

/// Sets the card of a file, which is there. It takes no memory.
fn put_there(stripe: &mut Stripe, fileid: Fileid, size: u64, owner: Ownership)
    requires { IsSome (get stripe.old.cards fileid.0) }
    ensures { stripe.new ≡ file_card_set fileid.0 size (ownership_of owner) stripe.old }
{
    match stripe.set_card(fileid, CardKind::File { size, owner }) {
        Ok(()) => {}
        Err(_) => unreachable!(),
    }
}

/// Marks blocks dead, and tells how many of this many are left. It takes no memory.
fn mark_all(dead: &mut DeadBlocks, blocks: &[BlockNumber], filled: u32) -> u32
    requires { AreNumbers dead.old.range_blocks (numbers blocks.now) }
    ensures left { result ≡ filled - length (numbers blocks.now) }
    ensures dead { dead.new ≡ dead_marked (numbers blocks.now) dead.old }
{
    let Some((number, rest)) = blocks.split_first() else {
        return filled;
    };
    dead.mark(*number);
    mark_all(dead, rest, filled.saturating_sub(1))
}

/// Cuts a file to a size in a stripe, span by span.
fn cut_stripe(
    stripe: &mut Stripe,
    dead: &mut DeadBlocks,
    fileid: Fileid,
    size: u64,
    filled: u32,
    memory: GiveBack,
    freed: &mut FreedBlocks,
) -> u32
    requires { AreNumbers dead.old.range_blocks (numbers_freed fileid.0 size stripe.old) }
    ensures left { result ≡ filled - length (numbers_freed fileid.0 size stripe.old) }
    ensures dead { dead.new ≡ dead_marked (numbers_freed fileid.0 size stripe.old) dead.old }
    ensures cut { stripe.new ≡ cut fileid.0 size stripe.old }
{
    let mut left = filled;
    while stripe.cut(fileid, size, memory, freed) {
        left = mark_all(dead, freed.as_slice(), left);
    }
    left
}
