//! A call over a stream, and its reply.

ghost use Rattle.std.specs.Prelude.{IfOk, IfErr, true};
ghost use Rattle.rpc_record.specs.Records.{fragment};
ghost use Rattle.nfs_types.specs.Results.{census_shape};
ghost use Rattle.admin_client.specs.Asking.{call_bytes};
ghost use Rattle.admin_client.specs.Incoming.{HasReply, IsOfStream};
ghost use Rattle.admin_client.specs.Telling.{growth_shape, growth_value, census_value};
ghost use Rattle.admin_client.specs.Telling.{stopped_value};
ghost use Rattle.xdr.specs.Shape.{Void};
ghost use Rattle.admin_client.specs.Over.{TellsOver};

use crate::call::{AdminCall, AdminUser, call_record};
use crate::fault::AdminFault;
use crate::growth::Growth;
use crate::incoming::next_record;
use crate::reply::{read_census, read_growth, read_stop};
use crate::volumes::Census;
use nfs_values::VolumeNumber;
use std::alloc::Global;
use std::io::{Read, Write};

/// The xid of a call. Its reply is the first record that comes behind it.
const XID: u32 = 1;

/// Sends a call of a user, and waits for the record of its reply.
fn ask<S: Read + Write>(
    stream: &mut S,
    alloc: Global,
    user: AdminUser,
    call: AdminCall,
) -> Result<Vec<u8>, AdminFault>
    ensures reply { IfOk result (λ reply. HasReply S.contents S.remaining stream.old
        (fragment true (call_bytes XID user call)) reply.items) }
    ensures faults { IfErr result IsOfStream }
{
    let message = call_record(alloc, XID, user, call)?;
    match stream.write_all(&message) {
        Ok(()) => next_record(alloc, stream),
        Err(error) => Err(AdminFault::of_stream(&error)),
    }
}

/// Asks a server over a connected stream how many blocks each volume has, and how many of them are
/// in files.
pub fn census<S: Read + Write>(stream: &mut S, alloc: Global) -> Result<Census, AdminFault>
    ensures { TellsOver census_shape census_value XID
        (HasReply S.contents S.remaining stream.old
        (fragment true (call_bytes XID AdminUser.Nobody AdminCall.Census))) result }
{
    let reply = ask(stream, alloc, AdminUser::Nobody, AdminCall::Census)?;
    read_census(alloc, XID, &reply)
}

/// Asks a server over a connected stream, as a user, for this many more ranges for a volume.
pub fn grow<S: Read + Write>(
    stream: &mut S,
    alloc: Global,
    user: AdminUser,
    volume: VolumeNumber,
    ranges: u32,
) -> Result<Growth, AdminFault>
    ensures { TellsOver growth_shape growth_value XID
        (HasReply S.contents S.remaining stream.old
        (fragment true (call_bytes XID user (AdminCall.Grow volume ranges)))) result }
{
    let reply = ask(stream, alloc, user, AdminCall::Grow { volume, ranges })?;
    read_growth(XID, &reply)
}

/// Asks a server over a connected stream, as a user, to stop.
pub fn stop<S: Read + Write>(
    stream: &mut S,
    alloc: Global,
    user: AdminUser,
) -> Result<(), AdminFault>
    ensures { TellsOver Void stopped_value XID
        (HasReply S.contents S.remaining stream.old
        (fragment true (call_bytes XID user AdminCall.Stop))) result }
{
    let reply = ask(stream, alloc, user, AdminCall::Stop)?;
    read_stop(XID, &reply)
}
