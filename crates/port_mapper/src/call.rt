//! Heads of calls (RFC 5531 sections 8.2 and 9).

ghost use Rattle.std.specs.Prelude.{◌≡◌};
ghost use Rattle.port_mapper.specs.declared.call.Stop.TheVariants as stops;
ghost use Rattle.port_mapper.specs.Calls.{Leaves, Says, Takes, auth_shape, call_at, call_of};
ghost use Rattle.port_mapper.specs.Calls.{credential_at, version_at, xid_at};
ghost use Rattle.xdr.specs.Reading.{Gives, read};

use crate::outcome::Outcome;
use xdr::{Cursor, Fault};

/// The type of a message that is a call (msg_type, RFC 5531 section 9).
const CALL: u32 = 0;

/// The version of RPC (RFC 5531 section 9).
const RPC_VERSION: u32 = 2;

/// The most bytes of the body of a credential or a verifier (RFC 5531 section 8.2).
const MOST_BODY: u32 = 400;

/// Why a message isn't heard as a call.
#[derive(Drop)]
pub(crate) enum Stop {
    /// It is no call, or its head isn't all there: nothing is replied.
    Silent,
    /// The reply refuses it.
    Refuse(Outcome),
}

impl From<Fault> for Stop {
    ghost from_gives = { λ _ stop. stop ≡ stops.Silent };

    fn from(_fault: Fault) -> Stop {
        Stop::Silent
    }
}

/// What a call asks.
#[derive(Drop)]
pub(crate) struct Call<'a> {
    pub(crate) program: u32,
    pub(crate) version: u32,
    pub(crate) procedure: u32,
    /// The bytes behind the head.
    pub(crate) arguments: &'a [u8],
}

/// The number of a message that is a call.
pub(crate) fn read_xid(from: &mut Cursor<'_>) -> Result<u32, Stop>
    ensures { Takes (λ xid. xid) result (xid_at from.old) from.new }
{
    let xid = from.u32()?;
    let kind = from.u32()?;
    if kind != CALL {
        return Err(Stop::Silent);
    }
    Ok(xid)
}

/// Reads the version of RPC, which is 2.
fn read_version(from: &mut Cursor<'_>) -> Result<(), Stop>
    ensures { Leaves result (version_at from.old) from.new }
{
    let version = from.u32()?;
    if version != RPC_VERSION {
        return Err(Stop::Refuse(Outcome::RpcMismatch));
    }
    Ok(())
}

/// Reads a credential of any flavor. One whose body is too long or isn't padded by zeros is
/// refused.
fn read_credential(from: &mut Cursor<'_>) -> Result<(), Stop>
    ensures { Leaves result (credential_at from.old) from.new }
{
    let _flavor = from.u32()?;
    let size = from.u32()?;
    if size > MOST_BODY {
        return Err(Stop::Refuse(Outcome::BadCredential));
    }
    match from.fixed(size) {
        Ok(_body) => Ok(()),
        Err(Fault::Short) => Err(Stop::Silent),
        Err(_padding) => Err(Stop::Refuse(Outcome::BadCredential)),
    }
}

/// A flavor and a body of at most 400 bytes.
fn read_verifier<'a>(from: &mut Cursor<'a>) -> Result<(u32, &'a [u8]), Fault>
    ensures { Gives (λ a. (a.0, a.1.now)) result (read auth_shape from.old) from.new }
{
    let flavor = from.u32()?;
    let body = from.opaque(MOST_BODY)?;
    Ok((flavor, body))
}

/// Reads the rest of the head of a call. The first of the checks that applies decides: the version
/// of RPC, the credential, and the verifier.
pub(crate) fn read_call<'a>(from: &mut Cursor<'a>) -> Result<Call<'a>, Stop>
    ensures { Says call_of result (call_at from.old) }
{
    read_version(from)?;
    let program = from.u32()?;
    let version = from.u32()?;
    let procedure = from.u32()?;
    read_credential(from)?;
    let (_flavor, _body) = read_verifier(from)?;
    Ok(Call {
        program,
        version,
        procedure,
        arguments: from.rest(),
    })
}
