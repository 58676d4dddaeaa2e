//! Records of a stream, and the records of the replies to them (RFC 5531 sections 9 and 11).

ghost use Rattle.std.specs.Prelude.{◌≡◌, ◌≤◌, ◌<◌, ◌++◌, List, ℕ, IfOk, IfSome, length, take, Some};
ghost use Rattle.std.specs.Bool.{OnTrue};
ghost use Rattle.rpc_record.specs.Machine.{start};
ghost use Rattle.rpc_record.specs.Stream.{read_stream};
ghost use Rattle.port_mapper.specs.Conversations.{Replies, reply_record};

use crate::answering::answer;
use crate::registration::Registration;
use rpc_record::{RECORD_LIMIT, Reassembler, Step, put_header};
use std::alloc::{AllocError, Global};
use std::marker::Model;
use std::net::IpAddr;

/// The most bytes of a request on a stream, and the most that may come before one is whole.
pub const MOST_REQUEST: usize = 1_024;

/// Appends the record of the reply to a request, if one is sent. Answers `false` where the reply is
/// too long for a record.
fn put_reply(
    alloc: Global,
    registered: &[Registration],
    reached: &IpAddr,
    request: &[u8],
    out: &mut Vec<u8>,
) -> Result<bool, AllocError>
    ensures { IfOk result (λ is_put. OnTrue is_put (out.new.items
        ≡ out.old.items ++ reply_record registered.now reached.now request.now)) }
{
    let Some(reply) = answer(alloc, registered, reached, request)? else {
        return Ok(true);
    };
    if reply.len() > RECORD_LIMIT {
        return Ok(false);
    }
    put_header(out, reply.len() as u32)?;
    out.extend_from_slice(&reply)?;
    Ok(true)
}

/// Takes bytes of a stream up to the end of at most one record, and replies to that. Answers how
/// many it took, and whether a record ended with them; none where the stream is to be closed.
fn reply_to_one(
    alloc: Global,
    registered: &[Registration],
    reached: &IpAddr,
    joined: &mut Reassembler,
    bytes: &[u8],
    out: &mut Vec<u8>,
) -> Result<Option<(usize, bool)>, AllocError>
    ensures within { IfOk result (λ taken. IfSome taken (λ t. t.0 ≤ length bytes.now)) }
    ensures some { 0 < length bytes.now → IfOk result (λ taken. IfSome taken (λ t. 0 < t.0)) }
    ensures replies { IfOk result (λ taken. IfSome taken (λ t. (stream : List ℕ)
        → (read_stream stream).at ≡ joined.old
        → Replies registered.now reached.now stream (take t.0 bytes.now)
        out.old.items out.new.items joined.new)) }
{
    let (taken, step) = joined.feed(bytes);
    match step {
        Step::Record(request) => {
            if request.len() > MOST_REQUEST {
                return Ok(None);
            }
            if put_reply(alloc, registered, reached, &request, out)? {
                Ok(Some((taken, true)))
            } else {
                Ok(None)
            }
        }
        Step::More => Ok(Some((taken, false))),
        Step::Fault | Step::NoMemory => Ok(None),
    }
}

/// Takes all bytes that came, and replies to each record that they complete, where `waiting` bytes
/// have come since the last one. Answers how many have then; none where the stream is to be closed.
fn reply_to_all(
    alloc: Global,
    registered: &[Registration],
    reached: &IpAddr,
    joined: &mut Reassembler,
    waiting: usize,
    bytes: &[u8],
    out: &mut Vec<u8>,
) -> Result<Option<usize>, AllocError>
    ensures { IfOk result (λ goes_on. IfSome goes_on (λ _. (stream : List ℕ)
        → (read_stream stream).at ≡ joined.old
        → Replies registered.now reached.now stream bytes.now
        out.old.items out.new.items joined.new)) }
{
    let mut waiting = waiting;
    let mut rest = bytes;
    while !rest.is_empty() {
        let heard = reply_to_one(alloc, registered, reached, joined, rest, out)?;
        let Some((taken, is_whole)) = heard else {
            return Ok(None);
        };
        waiting = if is_whole {
            0
        } else {
            waiting.saturating_add(taken)
        };
        let (_heard, behind) = rest.split_at(taken);
        rest = behind;
    }
    if waiting > MOST_REQUEST {
        return Ok(None);
    }
    Ok(Some(waiting))
}

/// A stream of requests (RFC 5531 section 11).
#[derive(Drop)]
pub struct Conversation {
    joined: Reassembler,
    /// How many bytes have come since the last record.
    waiting: usize,
}

impl Model for Conversation {
    ghost use Rattle.std.specs.Prelude.{Option};
    ghost use Rattle.rpc_record.specs.Machine.{State};

    ghost Value = { Option State };

    ghost view = { λ c. c.joined };
}

impl Conversation {
    /// At a stream's beginning.
    pub fn new(alloc: Global) -> Conversation
        ensures { result ≡ Some start }
    {
        Conversation {
            joined: Reassembler::new(alloc),
            waiting: 0,
        }
    }

    /// Takes bytes that came on a stream, and appends the records of the replies to all records
    /// that they complete. Answers whether the stream goes on: where not, or where memory ran out,
    /// it is to be closed. It doesn't go on where a request or its reply is too long for it.
    pub fn hear(
        &mut self,
        alloc: Global,
        registered: &[Registration],
        reached: &IpAddr,
        bytes: &[u8],
        out: &mut Vec<u8>,
    ) -> Result<bool, AllocError>
        ensures { IfOk result (λ goes_on. OnTrue goes_on ((stream : List ℕ)
            → (read_stream stream).at ≡ self.old
            → Replies registered.now reached.now stream bytes.now
            out.old.items out.new.items self.new)) }
    {
        let joined = &mut self.joined;
        match reply_to_all(alloc, registered, reached, joined, self.waiting, bytes, out)? {
            Some(waiting) => {
                self.waiting = waiting;
                Ok(true)
            }
            None => Ok(false),
        }
    }
}
