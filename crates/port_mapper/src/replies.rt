//! Replies as bytes (RFC 5531 sections 8.2 and 9, RFC 1833 sections 2.1 and 3.1).

ghost use Rattle.std.specs.Prelude.{◌≡◌, ◌++◌, OnOk, IfOk, map};
ghost use Rattle.std.specs.List.{flat_map};
ghost use Rattle.xdr.specs.Shape.{Chain, counted, spelling, word};
ghost use Rattle.port_mapper.specs.Asking.{binding_shape, mapping_shape, string_shape};
ghost use Rattle.port_mapper.specs.Addresses.{universal};
ghost use Rattle.port_mapper.specs.Replies.{accepted, binding_of, body_bytes, denied, mapping_of};
ghost use Rattle.port_mapper.specs.Replies.{message, reply_bytes, results_bytes};

use crate::address::{netid_of, universal_address};
use crate::outcome::{Outcome, Results};
use crate::registration::Registration;
use std::alloc::{AllocError, Global};
use std::net::IpAddr;
use xdr::{put_bool, put_opaque, put_u32};

// msg_type, reply_stat and auth_flavor (RFC 5531 sections 8.2 and 9).
const REPLY: u32 = 1;

const MSG_ACCEPTED: u32 = 0;

const MSG_DENIED: u32 = 1;

const AUTH_NONE: u32 = 0;

/// The most bytes of a string (RFC 4506 section 4.11).
const MOST_TEXT: usize = 4_294_967_295;

/// Who owns what is registered.
const OWNER: &[u8] = b"superuser";

/// Appends unsigned integers (RFC 4506 section 4.2).
fn put_words(out: &mut Vec<u8>, words: &[u32]) -> Result<(), AllocError>
    ensures { OnOk result (out.new.items ≡ out.old.items ++ flat_map word words.now) }
{
    for word in words {
        put_u32(out, *word)?;
    }
    Ok(())
}

/// Appends what is registered as a mapping (RFC 1833 section 3.1).
fn put_mapping(out: &mut Vec<u8>, each: &Registration) -> Result<(), AllocError>
    ensures { OnOk result (out.new.items
        ≡ out.old.items ++ spelling mapping_shape (mapping_of each.now)) }
{
    let protocol = each.protocol.number();
    put_words(
        out,
        &[each.program, each.version, protocol, each.port.into()],
    )
}

/// Appends a string (RFC 4506 section 4.11). One of 2^32 bytes, which has no spelling, counts as
/// one for which there is no memory.
fn put_text(out: &mut Vec<u8>, text: &[u8]) -> Result<(), AllocError>
    ensures { OnOk result (out.new.items ≡ out.old.items ++ counted text.now) }
{
    if text.len() > MOST_TEXT {
        return Err(AllocError);
    }
    put_opaque(out, text)
}

/// Appends a universal address as a string.
fn put_address(
    alloc: Global,
    out: &mut Vec<u8>,
    reached: &IpAddr,
    port: u16,
) -> Result<(), AllocError>
    ensures { OnOk result (out.new.items
        ≡ out.old.items ++ spelling string_shape (universal reached.now port)) }
{
    let address = universal_address(alloc, reached, port)?;
    put_text(out, address.as_bytes())
}

/// Appends what is registered as an rpcb, for a client that reached this address (RFC 1833 section
/// 2.1).
fn put_binding(
    alloc: Global,
    out: &mut Vec<u8>,
    reached: &IpAddr,
    each: &Registration,
) -> Result<(), AllocError>
    ensures { OnOk result (out.new.items
        ≡ out.old.items ++ spelling binding_shape (binding_of reached.now each.now)) }
{
    put_words(out, &[each.program, each.version])?;
    put_opaque(out, netid_of(each.protocol, reached))?;
    put_address(alloc, out, reached, each.port)?;
    put_opaque(out, OWNER)
}

/// Appends the list of all mappings.
fn put_mappings(out: &mut Vec<u8>, registered: &[Registration]) -> Result<(), AllocError>
    ensures { OnOk result (out.new.items
        ≡ out.old.items ++ spelling (Chain mapping_shape) (map mapping_of registered.now)) }
{
    for each in registered {
        put_bool(out, true)?;
        put_mapping(out, each)?;
    }
    put_bool(out, false)
}

/// Appends the list of all that is registered, for a client that reached this address.
fn put_bindings(
    alloc: Global,
    out: &mut Vec<u8>,
    reached: &IpAddr,
    registered: &[Registration],
) -> Result<(), AllocError>
    ensures { OnOk result (out.new.items ≡ out.old.items
        ++ spelling (Chain binding_shape) (map (binding_of reached.now) registered.now)) }
{
    for each in registered {
        put_bool(out, true)?;
        put_binding(alloc, out, reached, each)?;
    }
    put_bool(out, false)
}

/// Appends the results of a procedure.
fn put_results(
    alloc: Global,
    out: &mut Vec<u8>,
    registered: &[Registration],
    reached: &IpAddr,
    results: Results,
) -> Result<(), AllocError>
    ensures { OnOk result (out.new.items
        ≡ out.old.items ++ results_bytes registered.now reached.now results) }
{
    match results {
        Results::Nothing => Ok(()),
        Results::Unchanged => put_bool(out, false),
        Results::Port(port) => put_u32(out, port.into()),
        Results::Mappings => put_mappings(out, registered),
        Results::Address(Some(port)) => put_address(alloc, out, reached, port),
        Results::Address(None) => put_opaque(out, &[]),
        Results::Bindings => put_bindings(alloc, out, reached, registered),
    }
}

/// Appends the head of a reply to a call that was accepted, with its accept_stat.
fn put_accepted(out: &mut Vec<u8>, status: u32) -> Result<(), AllocError>
    ensures { OnOk result (out.new.items ≡ out.old.items ++ accepted status) }
{
    put_words(out, &[MSG_ACCEPTED, AUTH_NONE, 0, status])
}

/// Appends what became of a call.
fn put_body(
    alloc: Global,
    out: &mut Vec<u8>,
    registered: &[Registration],
    reached: &IpAddr,
    outcome: Outcome,
) -> Result<(), AllocError>
    ensures { OnOk result (out.new.items
        ≡ out.old.items ++ body_bytes registered.now reached.now outcome) }
{
    match outcome {
        Outcome::Done(results) => {
            put_accepted(out, 0)?;
            put_results(alloc, out, registered, reached, results)
        }
        Outcome::ProgramUnavailable => put_accepted(out, 1),
        Outcome::ProgramMismatch => {
            put_accepted(out, 2)?;
            put_words(out, &[2, 4])
        }
        Outcome::ProcedureUnavailable => put_accepted(out, 3),
        Outcome::GarbageArguments => put_accepted(out, 4),
        Outcome::RpcMismatch => put_words(out, &[MSG_DENIED, 0, 2, 2]),
        Outcome::BadCredential => put_words(out, &[MSG_DENIED, 1, 1]),
    }
}

/// The reply to the call of this number.
pub(crate) fn reply(
    alloc: Global,
    registered: &[Registration],
    reached: &IpAddr,
    xid: u32,
    outcome: Outcome,
) -> Result<Vec<u8>, AllocError>
    ensures { IfOk result (λ made. made.items
        ≡ reply_bytes registered.now reached.now xid outcome) }
{
    let mut out = Vec::new(alloc);
    put_words(&mut out, &[xid, REPLY])?;
    put_body(alloc, &mut out, registered, reached, outcome)?;
    Ok(out)
}
