//! The room of a reply.

ghost use Rattle.std.specs.Prelude.{◌≡◌, ◌+◌, ◌*◌, ◌≤◌};
ghost use Rattle.nfs_values.specs.Call.{call_of};
ghost use Rattle.rpc_msg.specs.Room.{padded_size, reply_room, results_room};

use nfs_values::{COUNT_LIMIT, Call, MOST_TEXT};

/// A record's header, and a reply as far as its accept_stat (RFC 5531 sections 9 and 11).
const HEAD_ROOM: usize = 28;

/// The most bytes of the record of a reply that refuses a record, or that says that memory ran out.
pub const REFUSAL_ROOM: usize = 36;

/// The attributes of a node before and after, each behind its flag (RFC 1813 section 2.6).
const CHANGE_ROOM: usize = 28 + 88;

/// Status, the handle and the attributes of what was made, and its directory's change (RFC 1813
/// section 3.3.8).
const MADE_ROOM: usize = 4 + 28 + 88 + CHANGE_ROOM;

/// The most volumes that EXPORT of MOUNT tells, each in 20 bytes.
const MOST_EXPORTS: usize = 10;

/// Bytes with their padding.
fn padded_size(count: u32) -> usize
    ensures { result ≡ padded_size count }
{
    (count as usize + 3) / 4 * 4
}

/// The most bytes of the results of a call, where there are this many volumes.
fn results_room(call: &Call, volumes: u32) -> usize
    ensures { result ≡ results_room volumes (call_of call.now) }
{
    match call {
        Call::Null => 0,
        Call::GetAttributes { .. } => 4 + 84,
        Call::SetAttributes { .. } => 4 + CHANGE_ROOM,
        Call::Lookup(_) => 4 + 24 + 88 + 88,
        Call::CheckAccess { .. } => 4 + 88 + 4,
        Call::ReadLink { .. } => 4 + 88 + 4 + padded_size(MOST_TEXT as u32),
        Call::Read { count, .. } => 20 + padded_size((*count).min(COUNT_LIMIT)),
        Call::Write { .. } => 4 + 8 + 4 + 4 + 8,
        Call::Create { .. } => MADE_ROOM,
        Call::MakeDirectory { .. } => MADE_ROOM,
        Call::MakeSymbolicLink { .. } => MADE_ROOM,
        Call::MakeDevice { .. } => MADE_ROOM,
        Call::Remove(_) => 4 + CHANGE_ROOM,
        Call::RemoveDirectory(_) => 4 + CHANGE_ROOM,
        Call::Rename { .. } => 4 + CHANGE_ROOM + CHANGE_ROOM,
        Call::MakeLink { .. } => 4 + 88 + CHANGE_ROOM,
        Call::ReadDirectory { count, .. } => 4 + (*count).clamp(4, COUNT_LIMIT) as usize,
        Call::ReadDirectoryPlus { count, .. } => 4 + (*count).clamp(4, COUNT_LIMIT) as usize,
        Call::FilesystemStatus { .. } => 4 + 88 + 6 * 8 + 4,
        Call::FilesystemInfo { .. } => 4 + 88 + 7 * 4 + 8 + 8 + 4,
        Call::PathConfiguration { .. } => 4 + 88 + 6 * 4,
        Call::Commit { .. } => 4 + CHANGE_ROOM + 8,
        Call::Census => 4 + 20 * volumes as usize,
        Call::Grow { .. } => 4 + 8,
        Call::Stop => 0,
        Call::Mount(_) => 4 + 20 * MOST_EXPORTS,
        Call::MountBelow { .. } => 4 + 24 + 12,
    }
}

/// The most bytes that the record of the reply to a call takes, where there are this many volumes:
/// a READ's, a READDIR's and a READDIRPLUS's by its count, a CENSUS's by the volumes, and of other
/// calls always the same. The record of a reply that says that memory ran out fits too.
pub fn room_of_reply(call: &Call, volumes: u32) -> usize
    ensures room { result ≡ reply_room volumes (call_of call.now) }
    ensures most { result ≤ 65_584 + 20 * volumes }
{
    HEAD_ROOM + results_room(call, volumes)
}
