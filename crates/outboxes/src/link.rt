//! A record apart from a row.

ghost use Rattle.std.specs.Prelude.{◌≡◌, ◌≤◌, [], length, vec_capacity, IsOk, IfOk, OnOk};
ghost use Rattle.nfs_values.specs.Reply.{reply_of};
ghost use Rattle.outboxes.specs.Boxes.{most_bytes};
ghost use Rattle.outboxes.specs.Messages.{message, record_of};
ghost use Rattle.outboxes.specs.Popped.{IsBlank, IsOf};

use crate::chain::{Chain, Link};
use crate::numbered_reply::NumberedReply;
use nfs_values::{Refusal, Reply};
use rpc_msg::{move_reply_record, write_reply_record};
use std::alloc::{AllocError, Global};
use std::mem;

/// A blank record with room for this many bytes.
pub(crate) fn blank(alloc: Global, bytes: usize) -> Result<Box<Link>, AllocError>
    ensures { IfOk result (λ link. IsBlank bytes link.value) }
{
    let bytes = Vec::with_capacity(alloc, bytes)?;
    let nothing = Reply::Refused(Refusal::SystemError);
    let numbered = NumberedReply::new(0, &nothing);
    // It has no memory of its own, and so it isn't moved to be dropped.
    mem::forget(nothing);
    let rest = Chain::new();
    Ok(Box::new(
        alloc,
        Link {
            bytes,
            numbered,
            rest,
        },
    )?)
}

/// Writes a reply into a blank record.
pub(crate) fn write(link: &mut Link, xid: u32, reply: &Reply) -> Result<(), AllocError>
    requires blank { link.old.bytes.items ≡ [] }
    requires short { length (record_of (message xid (reply_of reply.now))) ≤ most_bytes }
    ensures ok { OnOk result (IsOf (message xid (reply_of reply.now)) link.new) }
    ensures succeeds { length (record_of (message xid (reply_of reply.now)))
        ≤ vec_capacity link.old.bytes
        → IsOk result }
{
    match write_reply_record(&mut link.bytes, xid, reply) {
        Ok(()) => {
            link.numbered = NumberedReply::new(xid, reply);
            Ok(())
        }
        Err(refused) => Err(refused),
    }
}

/// Writes a reply into a blank record. The bytes of a READ aren't copied, and the reply has none
/// left.
pub(crate) fn move_in(link: &mut Link, xid: u32, reply: &mut Reply) -> Result<(), AllocError>
    requires blank { link.old.bytes.items ≡ [] }
    requires short { length (record_of (message xid (reply_of reply.old))) ≤ most_bytes }
    ensures ok { OnOk result (IsOf (message xid (reply_of reply.old)) link.new) }
    ensures succeeds { length (record_of (message xid (reply_of reply.old)))
        ≤ vec_capacity link.old.bytes
        → IsOk result }
{
    let numbered = NumberedReply::new(xid, reply);
    match move_reply_record(&mut link.bytes, xid, reply) {
        Ok(()) => {
            link.numbered = numbered;
            Ok(())
        }
        Err(refused) => Err(refused),
    }
}
