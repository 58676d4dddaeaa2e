//! What messages are answered with.

ghost use Rattle.std.specs.Prelude.{◌≡◌, IfOk};
ghost use Rattle.port_mapper.specs.Answers.{bytes_of, in_datagram, reply_to};

use crate::asking::outcome;
use crate::call::{Stop, read_call, read_xid};
use crate::registration::Registration;
use crate::replies::reply;
use std::alloc::{AllocError, Global};
use std::net::IpAddr;
use xdr::Cursor;

/// The most bytes of a reply that goes into a datagram.
pub const MOST_DATAGRAM: usize = 512;

/// The reply to a message (RFC 1833 sections 2 and 3, RFC 5531 section 9), where these are
/// registered and the client reached this address. There is none to a message that is no call, or
/// whose head isn't all there.
pub fn answer(
    alloc: Global,
    registered: &[Registration],
    reached: &IpAddr,
    request: &[u8],
) -> Result<Option<Vec<u8>>, AllocError>
    ensures { IfOk result (λ made. bytes_of made
        ≡ reply_to registered.now reached.now request.now) }
{
    let mut from = Cursor::new(request);
    let Ok(xid) = read_xid(&mut from) else {
        return Ok(None);
    };
    let outcome = match read_call(&mut from) {
        Ok(call) => outcome(registered, reached, &call),
        Err(Stop::Refuse(outcome)) => outcome,
        Err(Stop::Silent) => return Ok(None),
    };
    Ok(Some(reply(alloc, registered, reached, xid, outcome)?))
}

/// The same, where the reply goes into a datagram: there is none where it has more than 512 bytes.
pub fn answer_datagram(
    alloc: Global,
    registered: &[Registration],
    reached: &IpAddr,
    request: &[u8],
) -> Result<Option<Vec<u8>>, AllocError>
    ensures { IfOk result (λ made. bytes_of made
        ≡ in_datagram (reply_to registered.now reached.now request.now)) }
{
    match answer(alloc, registered, reached, request)? {
        Some(reply) if reply.len() <= MOST_DATAGRAM => Ok(Some(reply)),
        Some(_) | None => Ok(None),
    }
}
