//! The records of calls.

ghost use Rattle.std.specs.Prelude.{◌≡◌, ◌++◌, IfOk, OnOk, true};
ghost use Rattle.rpc_record.specs.Records.{fragment};
ghost use Rattle.xdr.specs.Shape.{spelling};
ghost use Rattle.rpc_msg.specs.Replies.{auth_shape};
ghost use Rattle.admin_client.specs.Asking.{call_bytes, credential_of, number_of, words_spelled};

use nfs_values::{ADMIN_PROGRAM, VolumeNumber};
use rpc_record::frame;
use std::alloc::{AllocError, Global};
use xdr::put_u32;

// msg_type, rpcvers and auth_flavor (RFC 5531 sections 8.2 and 9).
const CALL: u32 = 0;

const RPC_VERSION: u32 = 2;

const AUTH_NONE: u32 = 0;

const AUTH_SYS: u32 = 1;

/// The bytes of the body of AUTH_SYS of a machine without a name and a user without further groups
/// (authsys_parms, RFC 5531 appendix A).
const USER_BYTES: u32 = 20;

/// The version of the admin program (our profile).
const ADMIN_VERSION: u32 = 1;

/// A call of the admin program (our profile).
#[derive(Clone, Copy)]
pub enum AdminCall {
    /// CENSUS: how many blocks each volume has, and how many of them are in files.
    Census,
    /// GROW: this many more ranges for a volume.
    Grow { volume: VolumeNumber, ranges: u32 },
    /// STOP: the end of the server.
    Stop,
}

/// Who makes a call.
#[derive(Clone, Copy)]
pub enum AdminUser {
    /// Nobody in particular: AUTH_NONE (RFC 5531 section 10.1).
    Nobody,
    /// A user with a group: AUTH_SYS (RFC 5531 appendix A).
    Of { uid: u32, gid: u32 },
}

/// The number of its procedure.
fn number(call: AdminCall) -> u32
    ensures { result ≡ number_of call }
{
    match call {
        AdminCall::Census => 1,
        AdminCall::Grow { .. } => 2,
        AdminCall::Stop => 3,
    }
}

/// Appends unsigned integers (RFC 4506 section 4.2).
fn put_words(out: &mut Vec<u8>, words: &[u32]) -> Result<(), AllocError>
    ensures { OnOk result (out.new.items ≡ out.old.items ++ words_spelled words.now) }
{
    for word in words {
        put_u32(out, *word)?;
    }
    Ok(())
}

/// Appends the credential of a user: a flavor and a body (RFC 5531 section 8.2). Its stamp is 0.
fn put_credential(out: &mut Vec<u8>, user: AdminUser) -> Result<(), AllocError>
    ensures { OnOk result (out.new.items
        ≡ out.old.items ++ spelling auth_shape (credential_of user)) }
{
    match user {
        AdminUser::Nobody => put_words(out, &[AUTH_NONE, 0]),
        AdminUser::Of { uid, gid } => { put_words(out, &[AUTH_SYS, USER_BYTES, 0, 0, uid, gid, 0]) }
    }
}

/// The record of a call of a user, with a verifier of flavor AUTH_NONE (RFC 5531 sections 9, 10.1
/// and 11).
pub fn call_record(
    alloc: Global,
    xid: u32,
    user: AdminUser,
    call: AdminCall,
) -> Result<Vec<u8>, AllocError>
    ensures { IfOk result (λ made. made.items ≡ fragment true (call_bytes xid user call)) }
{
    let mut message = Vec::new(alloc);
    let head = [xid, CALL, RPC_VERSION, ADMIN_PROGRAM, ADMIN_VERSION];
    put_words(&mut message, &head)?;
    put_words(&mut message, &[number(call)])?;
    put_credential(&mut message, user)?;
    put_words(&mut message, &[AUTH_NONE, 0])?;
    if let AdminCall::Grow { volume, ranges } = call {
        put_words(&mut message, &[volume.0, ranges])?;
    }
    frame(alloc, &message)
}
