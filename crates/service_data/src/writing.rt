//! WRITE.

ghost use Rattle.std.specs.Prelude.{◌≡◌, min, IfNone, IfOk, None, OnErr};
ghost use Rattle.std.specs.Option.{option_map};
ghost use Rattle.nfs_values.specs.Caller.{caller_of};
ghost use Rattle.nfs_values.specs.Moment.{moment_of};
ghost use Rattle.stripe_cards.specs.Cards.{card_of};
ghost use Rattle.inodes.specs.Inode.{inode_value};
ghost use Rattle.nfs_model.specs.volume.Inodes.{inode_of};
ghost use Rattle.nfs_model.specs.Server.{most_bytes};
ghost use Rattle.parcels.specs.Filled.{logical_alike, volume_alike};
ghost use Rattle.filer_state.specs.state.Calls.{unasked};
ghost use Rattle.filer_state.specs.state.Sets.{
  logical_before,
  logical_after,
  volume_before,
  volume_after,
};
ghost use Rattle.service_data.specs.Promises.{IsHeld, LieInOneSpan};
ghost use Rattle.service_data.specs.Stripes.{HasStripes};
ghost use Rattle.service_data.specs.Writing.{
  asked_to_write,
  bytes_to_write,
  card_shown,
  DoneInLogical,
  WritesInLogical,
  WritesInStripe,
};
ghost use Rattle.service_data.specs.WritingInVolume.{DoneInVolume, IsVolumeHeld, WritesInVolume};

use crate::extending::{extend, extend_in_volume};
use crate::extension::Extension;
use crate::owners::{ends_set_ids, owner_on, refusal_of_write};
use crate::set_ids::clear_set_ids;
use filer_state::Files;
use filer_state::bytes::{writes_are_permitted, writing_calls_are_right};
use inodes::{Inode, InodeKind};
use nfs_values::answer::WriteResults;
use nfs_values::{COUNT_LIMIT, Caller, Fileid, Moment, Status};
use parcels::{LogicalHeld, StripeHeld, VolumeHeld};
use std::alloc::AllocError;
use stripe_cards::Card;

/// WRITE (RFC 1813 section 3.3.7), on the parcel of the stripe in which its bytes lie, as many as
/// the count, at most 65,536: ROFS or ACCES where the caller may not write the file; STALE, INVAL
/// for a directory or for a count that isn't the number of bytes, FBIG; else the bytes are written
/// over those that are there, at a moment. Where they would extend the file, fill a hole or end
/// that it is run as its owner nothing changes, and it has to move to Volume Logical: `None`. It
/// takes no memory.
pub fn write_in_stripe(
    held: &mut StripeHeld<Files>,
    caller: &Caller,
    fileid: Fileid,
    offset: u64,
    count: u32,
    written: &[u8],
    moment: Moment,
) -> Option<Result<WriteResults, Status>>
    requires span { LieInOneSpan offset (min count most_bytes) }
    ensures right { WritesInStripe fileid.0
        (asked_to_write (caller_of caller.now) offset count written.now
        (moment_of moment))
        held.old.own result held.new.own }
    ensures moved { IfNone result (held.new ≡ held.old) }
{
    let stripe = held.own.get_mut();
    let verifier = stripe.verifier();
    let card = stripe.card(fileid);
    let owner = owner_on(card);
    match refusal_of_write(caller, owner) {
        Some(refusal) => return Some(Err(refusal)),
        None => {}
    }
    let given = match bytes_to_write(card, stripe.largest(), offset, count, written.len()) {
        Ok(given) => given,
        Err(status) => return Some(Err(status)),
    };
    if given == 0 {
        return Some(Ok(WriteResults { count: 0, verifier }));
    }
    if ends_set_ids(caller, owner) {
        return None;
    }
    if !stripe.overwrite(fileid, offset, &written[..given], moment) {
        return None;
    }
    Some(Ok(WriteResults {
        count: given as u32,
        verifier,
    }))
}

/// WRITE, likewise, on the parcels under Volume Logical, wherever its bytes lie: a file that is too
/// short is extended, and holes are filled with blocks of the stock; where bytes are written by
/// another than uid 0 the file isn't run as its owner or its group any more. Where the stock has
/// too few nothing changes, and it has to move to Volume: `None`. Memory runs out only where a hole
/// is to be filled, and then nothing has changed.
pub fn write_in_logical(
    held: &mut LogicalHeld<Files>,
    caller: &Caller,
    fileid: Fileid,
    offset: u64,
    count: u32,
    written: &[u8],
    moment: Moment,
) -> Result<Option<Result<WriteResults, Status>>, AllocError>
    requires whole { IsHeld (logical_before held.old) }
    ensures right { WritesInLogical fileid.0
        (asked_to_write (caller_of caller.now) offset count written.now
        (moment_of moment))
        (logical_before held.old) result (logical_after held.old held.new) }
    ensures moved { IfOk result (λ told. told ≡ None → held.new ≡ held.old) }
    ensures starved { OnErr result (held.new ≡ held.old) }
    ensures alike { logical_alike held.old held.new }
{
    writing_calls_are_right();
    writes_are_permitted();
    let card = card_of_inode(held.own.get().inodes.get(fileid));
    let owner = owner_on(card);
    match refusal_of_write(caller, owner) {
        Some(refusal) => return Ok(Some(Err(refusal))),
        None => {}
    }
    let told = done_in_logical(held, card, fileid, offset, count, written, moment);
    clear_set_ids(held, caller, fileid, owner, &told);
    told
}

/// What WRITE comes to on the parcels under Volume Logical, where it isn't refused and but for the
/// set-id bits, to a file with this card.
fn done_in_logical(
    held: &mut LogicalHeld<Files>,
    card: Option<Card>,
    fileid: Fileid,
    offset: u64,
    count: u32,
    written: &[u8],
    moment: Moment,
) -> Result<Option<Result<WriteResults, Status>>, AllocError>
    requires whole { IsHeld (logical_before held.old) }
    requires card { option_map card_of card ≡ card_shown (inode_of held.old.own.inodes fileid.0) }
    ensures stripes { HasStripes held.new }
    ensures done { DoneInLogical fileid.0
        (asked_to_write unasked offset count written.now (moment_of moment))
        (logical_before held.old) result (logical_after held.old held.new) }
    ensures moved { IfOk result (λ told. told ≡ None → held.new ≡ held.old) }
    ensures starved { OnErr result (held.new ≡ held.old) }
    ensures alike { logical_alike held.old held.new }
{
    let logical = held.own.get();
    let verifier = logical.verifier;
    let given = match bytes_to_write(card, logical.largest, offset, count, written.len()) {
        Ok(given) => given,
        Err(status) => return Ok(Some(Err(status))),
    };
    if given == 0 {
        return Ok(Some(Ok(WriteResults { count: 0, verifier })));
    }
    match extend(held, fileid, offset, &written[..given], moment) {
        Ok(true) => Ok(Some(Ok(WriteResults {
            count: given as u32,
            verifier,
        }))),
        Ok(false) => Ok(None),
        Err(error) => Err(error),
    }
}

/// WRITE, likewise, on the parcels under Volume: holes are filled with blocks of the stock, then of
/// the bitmaps, then of the dead. NOSPC where files and holes would be more than all blocks of the
/// volume; where the rest is in hands, nothing changes and it waits for Volume again: `None`.
/// Memory runs out only where a hole is to be filled, and then nothing has changed.
pub fn write_in_volume(
    held: &mut VolumeHeld<Files>,
    caller: &Caller,
    fileid: Fileid,
    offset: u64,
    count: u32,
    written: &[u8],
    moment: Moment,
) -> Result<Option<Result<WriteResults, Status>>, AllocError>
    requires whole { IsVolumeHeld (volume_before held.old) }
    ensures right { WritesInVolume fileid.0
        (asked_to_write (caller_of caller.now) offset count written.now
        (moment_of moment))
        (volume_before held.old) result (volume_after held.old held.new) }
    ensures moved { IfOk result (λ told. told ≡ None → held.new ≡ held.old) }
    ensures starved { OnErr result (held.new ≡ held.old) }
    ensures alike { volume_alike held.old held.new }
{
    writing_calls_are_right();
    writes_are_permitted();
    let card = card_of_inode(held.logical.own.get().inodes.get(fileid));
    let owner = owner_on(card);
    match refusal_of_write(caller, owner) {
        Some(refusal) => return Ok(Some(Err(refusal))),
        None => {}
    }
    let told = done_in_volume(held, card, fileid, offset, count, written, moment);
    clear_set_ids(&mut held.logical, caller, fileid, owner, &told);
    told
}

/// What WRITE comes to on the parcels under Volume, where it isn't refused and but for the set-id
/// bits, to a file with this card.
fn done_in_volume(
    held: &mut VolumeHeld<Files>,
    card: Option<Card>,
    fileid: Fileid,
    offset: u64,
    count: u32,
    written: &[u8],
    moment: Moment,
) -> Result<Option<Result<WriteResults, Status>>, AllocError>
    requires whole { IsVolumeHeld (volume_before held.old) }
    requires card { option_map card_of card
        ≡ card_shown (inode_of held.old.logical.own.inodes fileid.0) }
    ensures stripes { HasStripes held.new.logical }
    ensures done { DoneInVolume fileid.0
        (asked_to_write unasked offset count written.now (moment_of moment))
        (volume_before held.old) result (volume_after held.old held.new) }
    ensures moved { IfOk result (λ told. told ≡ None → held.new ≡ held.old) }
    ensures starved { OnErr result (held.new ≡ held.old) }
    ensures alike { volume_alike held.old held.new }
{
    let logical = held.logical.own.get();
    let verifier = logical.verifier;
    let given = match bytes_to_write(card, logical.largest, offset, count, written.len()) {
        Ok(given) => given,
        Err(status) => return Ok(Some(Err(status))),
    };
    if given == 0 {
        return Ok(Some(Ok(WriteResults { count: 0, verifier })));
    }
    match extend_in_volume(held, fileid, offset, &written[..given], moment) {
        Ok(Extension::Written) => Ok(Some(Ok(WriteResults {
            count: given as u32,
            verifier,
        }))),
        Ok(Extension::NoSpace) => Ok(Some(Err(Status::NoSpace))),
        Ok(Extension::Short) => Ok(None),
        Err(error) => Err(error),
    }
}

/// The card that an inode has in each stripe, but for the touch.
fn card_of_inode(inode: Option<Inode>) -> Option<Card>
    ensures { option_map card_of result ≡ card_shown (option_map inode_value inode) }
{
    let inode = inode?;
    match inode.kind {
        InodeKind::RegularFile { size, .. } => Some(Card::File {
            size,
            touch: None,
            owner: inode.attributes.ownership(),
        }),
        InodeKind::Directory { .. } => Some(Card::Directory),
        InodeKind::Special { .. } => Some(Card::Directory),
    }
}

/// How many bytes are to be written to a file, by its card and the largest size: STALE where there
/// is no card, INVAL for a directory or for a count that isn't the number of bytes that are there,
/// none for a count of 0, FBIG.
fn bytes_to_write(
    card: Option<Card>,
    largest: u64,
    offset: u64,
    count: u32,
    byte_count: usize,
) -> Result<usize, Status>
    ensures { result ≡ bytes_to_write (option_map card_of card) largest offset count byte_count }
{
    match card {
        Some(Card::File { .. }) => {}
        Some(Card::Directory) => return Err(Status::Invalid),
        None => return Err(Status::Stale),
    }
    if count as usize != byte_count {
        return Err(Status::Invalid);
    }
    if count == 0 {
        return Ok(0);
    }
    let given = count.min(COUNT_LIMIT);
    if offset > largest || u64::from(given) > largest - offset {
        return Err(Status::TooBig);
    }
    Ok(given as usize)
}
