//! Blocks of files, each in the stripe in which it lies.

ghost use Rattle.std.specs.Prelude.{
  ◌≡◌,
  ◌+◌,
  ◌<◌,
  ◌≤◌,
  ◌%◌,
  length,
  map,
  OnOk,
  OnErr,
};
ghost use Rattle.nfs_model.specs.Home.{span_bytes};
ghost use Rattle.nfs_values.specs.Moment.{moment_of};
ghost use Rattle.nfs_values.specs.Ownership.{ownership_of};
ghost use Rattle.nfs_model.specs.volume.Stripes.{
  stripe_of,
  is_filled,
  block_inserted,
  block_taken,
  block_numbered,
  file_card_owned,
  overwritten,
};
ghost use Rattle.filer_state.specs.state.Sets.{logical_before, stripe_value};
ghost use Rattle.filer_state.specs.state.Tree.{home_stripe};
ghost use Rattle.filer_state.specs.bytes.Extending.{span_written, stripe_grown};
ghost use Rattle.service_data.specs.Stripes.{HasStripes};
ghost use Rattle.service_data.specs.Places.{
  home_held,
  place_changed,
  StripesChanged,
};

use filer_state::Files;
use nfs_values::{BLOCK_BYTES, BlockNumber, Fileid, Moment, Ownership, SPAN_BLOCKS};
use parcels::{LogicalHeld, StripeHeld};
use std::alloc::AllocError;
use stripe_cards::Card;
use stripes::Stripe;

/// The place of the stripe in which a block of a file lies.
fn home(held: &LogicalHeld<Files>, fileid: Fileid, block: u64) -> usize
    requires { HasStripes held.now }
    ensures home { result ≡ stripe_of held.now.own.stripes fileid.0 block }
    ensures below { result < held.now.own.stripes }
    ensures place { result < 16 }
{
    let stripes = u64::from(held.own.get().stripes);
    ((fileid.0 % stripes + block / SPAN_BLOCKS % stripes) % stripes) as usize
}

/// Whether a block of a file is filled.
pub(crate) fn is_filled(held: &LogicalHeld<Files>, fileid: Fileid, block: u64) -> bool
    requires { HasStripes held.now }
    ensures { result ≡ is_filled
        (home_stripe (logical_before held.now).stripes fileid.0 block) fileid.0 block }
{
    let place = home(held, fileid, block);
    filled_in(&held.stripes.at[place], fileid, block)
}

/// Whether a block of a file is filled in the stripe in a place; none is where there is no stripe.
fn filled_in(place: &Option<StripeHeld<Files>>, fileid: Fileid, block: u64) -> bool
    ensures { result ≡ is_filled (stripe_value place.now) fileid.0 block }
{
    match place {
        Some(stripe) => stripe.own.get().is_filled(fileid, block),
        None => false,
    }
}

/// Fills a block of a file with zeros, under the number 0. Where there is no memory nothing
/// changes.
pub(crate) fn fill_block(
    held: &mut LogicalHeld<Files>,
    fileid: Fileid,
    block: u64,
) -> Result<(), AllocError>
    requires { HasStripes held.old }
    ensures ok { OnOk result (held.new
        ≡ home_held fileid.0 block (block_inserted fileid.0 block 0) held.old) }
    ensures err { OnErr result (held.new ≡ held.old) }
{
    let place = home(held, fileid, block);
    fill_in(&mut held.stripes.at[place], fileid, block)
}

/// Fills a block of a file with zeros in the stripe in a place.
fn fill_in(
    place: &mut Option<StripeHeld<Files>>,
    fileid: Fileid,
    block: u64,
) -> Result<(), AllocError>
    ensures ok { OnOk result
        (place.new ≡ place_changed (block_inserted fileid.0 block 0) place.old) }
    ensures err { OnErr result (place.new ≡ place.old) }
{
    match place {
        Some(stripe) => stripe
            .own
            .get_mut()
            .insert_block(fileid, block, BlockNumber(0)),
        None => Ok(()),
    }
}

/// Takes a block of a file, so that a hole is left. It takes no memory.
pub(crate) fn empty_block(held: &mut LogicalHeld<Files>, fileid: Fileid, block: u64)
    requires { HasStripes held.old }
    ensures { held.new ≡ home_held fileid.0 block (block_taken fileid.0 block) held.old }
{
    let place = home(held, fileid, block);
    empty_in(&mut held.stripes.at[place], fileid, block);
}

/// Takes a block of a file out of the stripe in a place.
fn empty_in(place: &mut Option<StripeHeld<Files>>, fileid: Fileid, block: u64)
    ensures { place.new ≡ place_changed (block_taken fileid.0 block) place.old }
{
    if let Some(stripe) = place {
        stripe.own.get_mut().take_block(fileid, block);
    }
}

/// Puts a block of a file under another number. It takes no memory.
pub(crate) fn number_block(
    held: &mut LogicalHeld<Files>,
    fileid: Fileid,
    block: u64,
    number: BlockNumber,
)
    requires { HasStripes held.old }
    ensures { held.new
        ≡ home_held fileid.0 block (block_numbered fileid.0 block number.0) held.old }
{
    let place = home(held, fileid, block);
    number_in(&mut held.stripes.at[place], fileid, block, number);
}

/// Puts a block of a file under another number in the stripe in a place.
fn number_in(place: &mut Option<StripeHeld<Files>>, fileid: Fileid, block: u64, number: BlockNumber)
    ensures { place.new ≡ place_changed (block_numbered fileid.0 block number.0) place.old }
{
    if let Some(stripe) = place {
        stripe.own.get_mut().set_number(fileid, block, number);
    }
}

/// Writes bytes of one span over the blocks that are there. It takes no memory.
pub(crate) fn write_span(
    held: &mut LogicalHeld<Files>,
    fileid: Fileid,
    offset: u64,
    written: &[u8],
    moment: Moment,
)
    requires stripes { HasStripes held.old }
    requires some { 0 < length written.now }
    requires span { offset % span_bytes + length written.now ≤ span_bytes }
    ensures { StripesChanged (span_written fileid.0 offset written.now (moment_of moment))
        held.old held.new }
{
    let place = home(held, fileid, offset / BLOCK_BYTES);
    write_in(&mut held.stripes.at[place], fileid, offset, written, moment);
}

/// Writes bytes of one span over the blocks that are there in the stripe in a place.
fn write_in(
    place: &mut Option<StripeHeld<Files>>,
    fileid: Fileid,
    offset: u64,
    written: &[u8],
    moment: Moment,
)
    requires some { 0 < length written.now }
    requires span { offset % span_bytes + length written.now ≤ span_bytes }
    ensures { place.new ≡ place_changed
        (overwritten fileid.0 offset written.now (moment_of moment)) place.old }
{
    if let Some(stripe) = place {
        stripe
            .own
            .get_mut()
            .write_filled(fileid, offset, written, moment);
    }
}

/// Shows at least a size on a file's card in each stripe. It takes no memory.
pub(crate) fn grow_cards(held: &mut LogicalHeld<Files>, fileid: Fileid, size: u64)
    requires { HasStripes held.old }
    ensures { StripesChanged (map (stripe_grown fileid.0 size)) held.old held.new }
{
    let stripes = held.own.get().stripes as usize;
    for place in 0..stripes {
        grow_in(&mut held.stripes.at[place], fileid, size);
    }
}

/// Shows at least a size on a file's card in the stripe in a place.
fn grow_in(place: &mut Option<StripeHeld<Files>>, fileid: Fileid, size: u64)
    ensures { place.new ≡ place_changed (stripe_grown fileid.0 size) place.old }
{
    if let Some(stripe) = place {
        grow_card(stripe.own.get_mut(), fileid, size);
    }
}

/// Shows at least a size on a file's card.
fn grow_card(stripe: &mut Stripe, fileid: Fileid, size: u64)
    ensures { stripe.new ≡ stripe_grown fileid.0 size stripe.old }
{
    match stripe.card(fileid) {
        Some(Card::File { size: shown, .. }) => stripe.set_size(fileid, shown.max(size)),
        Some(Card::Directory) => {}
        None => {}
    }
}

/// Shows an owner on a file's card in each stripe. It takes no memory.
pub(crate) fn own_cards(held: &mut LogicalHeld<Files>, fileid: Fileid, owner: Ownership)
    requires { HasStripes held.old }
    ensures { StripesChanged (map (file_card_owned fileid.0 (ownership_of owner)))
        held.old held.new }
{
    let count = held.own.get().stripes as usize;
    for place in 0..count {
        own_in(&mut held.stripes.at[place], fileid, owner);
    }
}

/// Shows an owner on a file's card in the stripe in a place.
fn own_in(place: &mut Option<StripeHeld<Files>>, fileid: Fileid, owner: Ownership)
    ensures { place.new
        ≡ place_changed (file_card_owned fileid.0 (ownership_of owner)) place.old }
{
    if let Some(stripe) = place {
        stripe.own.get_mut().set_owner(fileid, owner);
    }
}
