//! The cards of a node, in the stripes of its volume.

ghost use Rattle.std.specs.Prelude.{◌≡◌, ◌≤◌, map, OnOk};
ghost use Rattle.parcels.specs.Filled.{logical_alike};
ghost use Rattle.nfs_values.specs.Ownership.{ownership_of};
ghost use Rattle.inodes.specs.Inode.{kind_value};
ghost use Rattle.filer_state.specs.state.Sets.{logical_before, logical_after};
ghost use Rattle.filer_state.specs.changes.NodesMade.{card_made};
ghost use Rattle.nfs_model.specs.volume.Stripes.{card_dropped};
ghost use Rattle.service_names.specs.Cards.{InFirst, DiffersByCard, HasCard, IsDropped};

use filer_state::Files;
use inodes::InodeKind;
use nfs_values::{Fileid, Ownership};
use parcels::{LogicalHeld, StripeHeld};
use std::alloc::AllocError;
use stripe_cards::CardKind;
use stripes::Stripe;

/// Puts the card of a new node into each stripe of its volume. Where memory runs out some stripes
/// may have it.
pub(crate) fn put_cards(
    held: &mut LogicalHeld<Files>,
    fileid: Fileid,
    owner: Ownership,
    kind: InodeKind,
) -> Result<(), AllocError>
    requires few { held.old.own.stripes ≤ 16 }
    ensures own { held.new.own ≡ held.old.own }
    ensures others { InFirst (DiffersByCard fileid.0) held.old.own.stripes
        held.old.stripes.at held.new.stripes.at }
    ensures ok { OnOk result (InFirst (HasCard (ownership_of owner) (kind_value kind) fileid.0)
        held.old.own.stripes held.old.stripes.at held.new.stripes.at) }
{
    let mut left = held.own.get().stripes as usize;
    while left > 0 {
        left -= 1;
        put_card(&mut held.stripes.at[left], fileid, owner, kind)?;
    }
    Ok(())
}

/// Takes the card of a node out of each stripe of its volume. It takes no memory.
pub fn drop_cards(held: &mut LogicalHeld<Files>, fileid: Fileid)
    requires few { held.old.own.stripes ≤ 16 }
    ensures own { held.new.own ≡ held.old.own }
    ensures dropped { InFirst (IsDropped fileid.0) held.old.own.stripes
        held.old.stripes.at held.new.stripes.at }
    ensures stripes { (logical_after held.old held.new).stripes
        ≡ map (card_dropped fileid.0) (logical_before held.old).stripes }
    ensures alike { logical_alike held.old held.new }
{
    let mut left = held.own.get().stripes as usize;
    while left > 0 {
        left -= 1;
        drop_card(&mut held.stripes.at[left], fileid);
    }
}

/// Puts the card of a new node into the stripe in a place.
fn put_card(
    place: &mut Option<StripeHeld<Files>>,
    fileid: Fileid,
    owner: Ownership,
    kind: InodeKind,
) -> Result<(), AllocError>
    ensures others { DiffersByCard fileid.0 place.old place.new }
    ensures ok { OnOk result
        (HasCard (ownership_of owner) (kind_value kind) fileid.0 place.old place.new) }
{
    match place {
        Some(stripe) => put_in(stripe.own.get_mut(), fileid, owner, kind),
        None => Ok(()),
    }
}

/// Puts the card of a new node into a stripe.
fn put_in(
    stripe: &mut Stripe,
    fileid: Fileid,
    owner: Ownership,
    kind: InodeKind,
) -> Result<(), AllocError>
    ensures others { card_dropped fileid.0 stripe.new ≡ card_dropped fileid.0 stripe.old }
    ensures ok { OnOk result (stripe.new
        ≡ card_made (ownership_of owner) (kind_value kind) fileid.0 stripe.old) }
{
    match kind {
        InodeKind::RegularFile { size, .. } => {
            stripe.set_card(fileid, CardKind::File { size, owner })
        }
        InodeKind::Directory { .. } => stripe.set_card(fileid, CardKind::Directory),
        InodeKind::Special { .. } => stripe.set_card(fileid, CardKind::Directory),
    }
}

/// Takes the card of a node out of the stripe in a place.
fn drop_card(place: &mut Option<StripeHeld<Files>>, fileid: Fileid)
    ensures { IsDropped fileid.0 place.old place.new }
{
    if let Some(stripe) = place {
        stripe.own.get_mut().drop_card(fileid);
    }
}
