//! READ.

ghost use Rattle.std.specs.Prelude.{◌≡◌, ℕ, ◌+◌, ◌-◌, [], min, nat_le};
ghost use Rattle.std.specs.Option.{option_map};
ghost use Rattle.nfs_model.specs.Server.{most_bytes};
ghost use Rattle.nfs_model.specs.Types as types;
ghost use Rattle.nfs_values.specs.Answer.{result_of};
ghost use Rattle.nfs_values.specs.Caller.{caller_of};
ghost use Rattle.inodes.specs.Inode.{inode_value};
ghost use Rattle.stripe_cards.specs.Cards.{card_of};
ghost use Rattle.filer_state.specs.state.Sets.{logical_before};
ghost use Rattle.filer_state.specs.bytes.Reading.{on_card, on_inode};
ghost use Rattle.service_data.specs.Promises.{
  LieInOneSpan,
  ReadsInStripe,
  ReadsInLogical,
  IsHeld,
};

use crate::owners::{owner_of, owner_on, refusal_of_read};
use crate::spans::read_spans;
use filer_state::Files;
use inodes::{Inode, InodeKind};
use nfs_values::answer::ReadResults;
use nfs_values::{BytesRead, COUNT_LIMIT, Caller, Fileid, Status, room_to_read};
use parcels::{LogicalHeld, StripeHeld};
use std::alloc::{AllocError, Global};
use stripe_cards::Card;

/// READ (RFC 1813 section 3.3.6), on the parcel of the stripe in which its bytes lie, those from
/// the offset on, as many as the count, at most 65,536: ACCES where the file may not be read;
/// STALE, or INVAL for a directory; else the bytes before the end of the file, and whether they
/// reach it. Memory runs out only where bytes would be given.
pub fn read_in_stripe(
    alloc: Global,
    held: &StripeHeld<Files>,
    caller: &Caller,
    fileid: Fileid,
    offset: u64,
    count: u32,
) -> Result<Result<ReadResults, Status>, AllocError>
    requires span { LieInOneSpan offset (min count most_bytes) }
    ensures right { ReadsInStripe (caller_of caller.now) fileid.0 offset count held.now.own
        result }
{
    let stripe = held.own.get();
    let card = stripe.card(fileid);
    match refusal_of_read(caller, owner_on(card)) {
        Some(refusal) => return Ok(Err(refusal)),
        None => {}
    }
    let size = match size_on(card) {
        Ok(size) => size,
        Err(status) => return Ok(Err(status)),
    };
    let (given, eof) = given_of(size, offset, count);
    if given == 0 {
        return Ok(Ok(none_read(alloc, eof)));
    }
    let mut place = room_to_read(alloc, given)?;
    stripe.read(fileid, offset, given, &mut place);
    let bytes = BytesRead::new(place);
    Ok(Ok(ReadResults { eof, bytes }))
}

/// READ, likewise, on the parcels under Volume Logical, wherever its bytes lie.
pub fn read_in_logical(
    alloc: Global,
    held: &LogicalHeld<Files>,
    caller: &Caller,
    fileid: Fileid,
    offset: u64,
    count: u32,
) -> Result<Result<ReadResults, Status>, AllocError>
    requires whole { IsHeld (logical_before held.now) }
    ensures right { ReadsInLogical (caller_of caller.now) fileid.0 offset count
        (logical_before held.now) result }
{
    let inode = held.own.get().inodes.get(fileid);
    match refusal_of_read(caller, owner_of(inode)) {
        Some(refusal) => return Ok(Err(refusal)),
        None => {}
    }
    let size = match size_of(inode) {
        Ok(size) => size,
        Err(status) => return Ok(Err(status)),
    };
    let (given, eof) = given_of(size, offset, count);
    if given == 0 {
        return Ok(Ok(none_read(alloc, eof)));
    }
    let mut place = room_to_read(alloc, given)?;
    read_spans(held, fileid, offset, given, &mut place);
    let bytes = BytesRead::new(place);
    Ok(Ok(ReadResults { eof, bytes }))
}

/// No bytes, which need no memory.
fn none_read(alloc: Global, eof: bool) -> ReadResults
    ensures { result ≡ record { eof = eof; bytes = [] } }
{
    let bytes = BytesRead::none(alloc);
    ReadResults { eof, bytes }
}

/// The size of a file by its card: STALE where there is none, INVAL for a directory.
fn size_on(card: Option<Card>) -> Result<u64, Status>
    ensures { (told : ℕ → types.Answer)
        → on_card (option_map card_of card) told ≡ result_of told 1 result }
{
    match card {
        Some(Card::File { size, .. }) => Ok(size),
        Some(Card::Directory) => Err(Status::Invalid),
        None => Err(Status::Stale),
    }
}

/// The size of a file by its inode: STALE where there is none, INVAL for a directory.
fn size_of(inode: Option<Inode>) -> Result<u64, Status>
    ensures { (told : ℕ → types.Answer)
        → on_inode (option_map inode_value inode) told ≡ result_of told 1 result }
{
    let inode = match inode {
        Some(inode) => inode,
        None => return Err(Status::Stale),
    };
    match inode.kind {
        InodeKind::RegularFile { size, .. } => Ok(size),
        InodeKind::Directory { .. } => Err(Status::Invalid),
        InodeKind::Special { .. } => Err(Status::Invalid),
    }
}

/// How many bytes are given of a file of a size from an offset on, and whether they reach its end.
fn given_of(size: u64, offset: u64, count: u32) -> (usize, bool)
    ensures given { result.0 ≡ min (min count most_bytes) (size - offset) }
    ensures eof { result.1 ≡ nat_le size (offset + min (min count most_bytes) (size - offset)) }
{
    let left = size.saturating_sub(offset);
    let most = u64::from(count.min(COUNT_LIMIT));
    (left.min(most) as usize, left <= most)
}
