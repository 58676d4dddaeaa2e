//! Replies of RPC as far as their results (RFC 5531 section 9).

ghost use Rattle.std.specs.Prelude.{◌≡◌};
ghost use Rattle.xdr.specs.Reading.{Gives, read};
ghost use Rattle.admin_client.specs.Telling.{accepted_shape, accepted_value, body_shape};
ghost use Rattle.admin_client.specs.Telling.{body_value, rejected_shape, rejected_value};
ghost use Rattle.admin_client.specs.Telling.{head_shape, head_value, refusal_in};

use crate::refusal::CallRefusal;
use xdr::{Cursor, Fault};

/// The most bytes of a verifier's body (RFC 5531 section 8.2).
const MOST_VERIFIER: u32 = 400;

/// What became of a call that was accepted (accept_stat).
#[derive(Clone, Copy)]
pub(crate) enum Accepted {
    Success,
    ProgramUnavailable,
    ProgramMismatch { low: u32, high: u32 },
    ProcedureUnavailable,
    GarbageArguments,
    SystemError,
}

/// Why a call was not accepted (reject_stat).
#[derive(Clone, Copy)]
pub(crate) enum Rejected {
    RpcMismatch { low: u32, high: u32 },
    AuthError { number: u32 },
}

/// What a reply says of its call (reply_body).
#[derive(Drop)]
pub(crate) enum Body<'a> {
    /// MSG_ACCEPTED, with the server's verifier.
    Accepted {
        flavor: u32,
        verifier: &'a [u8],
        accepted: Accepted,
    },
    /// MSG_DENIED.
    Denied(Rejected),
}

/// A reply as far as its results (rpc_msg).
#[derive(Drop)]
pub(crate) struct Head<'a> {
    pub(crate) xid: u32,
    pub(crate) body: Body<'a>,
}

/// Reads what became of a call that was accepted.
fn read_accepted(from: &mut Cursor<'_>) -> Result<Accepted, Fault>
    ensures { Gives accepted_value result (read accepted_shape from.old) from.new }
{
    match from.u32()? {
        0 => Ok(Accepted::Success),
        1 => Ok(Accepted::ProgramUnavailable),
        2 => Ok(Accepted::ProgramMismatch {
            low: from.u32()?,
            high: from.u32()?,
        }),
        3 => Ok(Accepted::ProcedureUnavailable),
        4 => Ok(Accepted::GarbageArguments),
        5 => Ok(Accepted::SystemError),
        _ => Err(Fault::BadEnum),
    }
}

/// Reads why a call was not accepted.
fn read_rejected(from: &mut Cursor<'_>) -> Result<Rejected, Fault>
    ensures { Gives rejected_value result (read rejected_shape from.old) from.new }
{
    match from.u32()? {
        0 => Ok(Rejected::RpcMismatch {
            low: from.u32()?,
            high: from.u32()?,
        }),
        1 => Ok(Rejected::AuthError {
            number: from.u32()?,
        }),
        _ => Err(Fault::BadEnum),
    }
}

/// Reads what a reply says of its call.
fn read_body<'a>(from: &mut Cursor<'a>) -> Result<Body<'a>, Fault>
    ensures { Gives body_value result (read body_shape from.old) from.new }
{
    match from.u32()? {
        0 => {
            let flavor = from.u32()?;
            let verifier = from.opaque(MOST_VERIFIER)?;
            let accepted = read_accepted(from)?;
            Ok(Body::Accepted {
                flavor,
                verifier,
                accepted,
            })
        }
        1 => Ok(Body::Denied(read_rejected(from)?)),
        _ => Err(Fault::BadEnum),
    }
}

/// Reads a reply as far as its results. A message that is no reply is `BadEnum`.
pub(crate) fn read_head<'a>(from: &mut Cursor<'a>) -> Result<Head<'a>, Fault>
    ensures { Gives head_value result (read head_shape from.old) from.new }
{
    let xid = from.u32()?;
    match from.u32()? {
        1 => Ok(Head {
            xid,
            body: read_body(from)?,
        }),
        _ => Err(Fault::BadEnum),
    }
}

/// Why a call was not done, if it wasn't.
pub(crate) fn refusal(body: &Body<'_>) -> Option<CallRefusal>
    ensures { result ≡ refusal_in body.now }
{
    match body {
        Body::Accepted { accepted, .. } => match *accepted {
            Accepted::Success => None,
            Accepted::ProgramUnavailable => Some(CallRefusal::ProgramUnavailable),
            Accepted::ProgramMismatch { low, high } => {
                Some(CallRefusal::ProgramMismatch { low, high })
            }
            Accepted::ProcedureUnavailable => Some(CallRefusal::ProcedureUnavailable),
            Accepted::GarbageArguments => Some(CallRefusal::GarbageArguments),
            Accepted::SystemError => Some(CallRefusal::SystemError),
        },
        Body::Denied(rejected) => match *rejected {
            Rejected::RpcMismatch { low, high } => Some(CallRefusal::RpcMismatch { low, high }),
            Rejected::AuthError { number } => Some(CallRefusal::AuthError { number }),
        },
    }
}
