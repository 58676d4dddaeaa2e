//! What calls ask, and what they come to (RFC 1833 sections 2.1, 2.2.1, 3.1 and 3.2).

ghost use Rattle.std.specs.Prelude.{◌≡◌};
ghost use Rattle.xdr.specs.Shape.{Void};
ghost use Rattle.xdr.specs.Reading.{GivesAll, all_of};
ghost use Rattle.port_mapper.specs.Calls.{call_of};
ghost use Rattle.port_mapper.specs.Asking.{binding_shape, binding_value, done, mapping_shape};
ghost use Rattle.port_mapper.specs.Asking.{mapping_value, outcome_of, results_of};

use crate::address::bound_port;
use crate::call::Call;
use crate::outcome::{Outcome, Results};
use crate::procedure::{Procedure, procedure_of};
use crate::registration::{MAPPER_PROGRAM, Registration, port_of};
use std::net::IpAddr;
use xdr::{Cursor, Fault};

/// The lowest and the highest version of the port mapper (RFC 1833 sections 2.1 and 3.1).
const VERSIONS: (u32, u32) = (2, 4);

/// The arguments of SET, UNSET and GETPORT in version 2 (mapping, RFC 1833 section 3.1).
#[derive(Clone, Copy)]
struct Mapping {
    program: u32,
    version: u32,
    protocol: u32,
    port: u32,
}

/// The arguments of SET, UNSET and GETADDR in versions 3 and 4 (rpcb, RFC 1833 section 2.1).
#[derive(Drop)]
struct Binding<'a> {
    program: u32,
    version: u32,
    netid: &'a [u8],
    address: &'a [u8],
    owner: &'a [u8],
}

/// Arguments of which there are none.
fn read_nothing(bytes: &[u8]) -> Result<(), Fault>
    ensures { GivesAll (λ nothing. nothing) result (all_of Void bytes.now) }
{
    Cursor::new(bytes).end()
}

/// The bytes as a mapping, all of them.
fn read_mapping(bytes: &[u8]) -> Result<Mapping, Fault>
    ensures { GivesAll mapping_value result (all_of mapping_shape bytes.now) }
{
    let mut from = Cursor::new(bytes);
    let program = from.u32()?;
    let version = from.u32()?;
    let protocol = from.u32()?;
    let port = from.u32()?;
    from.end()?;
    Ok(Mapping {
        program,
        version,
        protocol,
        port,
    })
}

/// The bytes as an rpcb, all of them.
fn read_binding(bytes: &[u8]) -> Result<Binding<'_>, Fault>
    ensures { GivesAll binding_value result (all_of binding_shape bytes.now) }
{
    let mut from = Cursor::new(bytes);
    let program = from.u32()?;
    let version = from.u32()?;
    let netid = from.opaque(u32::MAX)?;
    let address = from.opaque(u32::MAX)?;
    let owner = from.opaque(u32::MAX)?;
    from.end()?;
    Ok(Binding {
        program,
        version,
        netid,
        address,
        owner,
    })
}

/// What a procedure comes to by the bytes of its arguments, where they can be read.
fn results(
    registered: &[Registration],
    reached: &IpAddr,
    procedure: Procedure,
    bytes: &[u8],
) -> Result<Results, Fault>
    ensures { result ≡ results_of registered.now reached.now procedure bytes.now }
{
    match procedure {
        Procedure::Null => {
            read_nothing(bytes)?;
            Ok(Results::Nothing)
        }
        Procedure::SetMapping => {
            let _mapping = read_mapping(bytes)?;
            Ok(Results::Unchanged)
        }
        Procedure::GetPort => {
            let m = read_mapping(bytes)?;
            let port = port_of(registered, m.program, m.version, m.protocol);
            Ok(Results::Port(port))
        }
        Procedure::DumpMappings => {
            read_nothing(bytes)?;
            Ok(Results::Mappings)
        }
        Procedure::SetBinding => {
            let _binding = read_binding(bytes)?;
            Ok(Results::Unchanged)
        }
        Procedure::GetAddress => {
            let b = read_binding(bytes)?;
            let port = bound_port(registered, reached, b.program, b.version, b.netid);
            Ok(Results::Address(port))
        }
        Procedure::DumpBindings => {
            read_nothing(bytes)?;
            Ok(Results::Bindings)
        }
    }
}

/// What becomes of a call: it is done, or refused by its program, its version, its procedure or its
/// arguments, in this order.
pub(crate) fn outcome(registered: &[Registration], reached: &IpAddr, call: &Call<'_>) -> Outcome
    ensures { result ≡ outcome_of registered.now reached.now (call_of call.now) }
{
    if call.program != MAPPER_PROGRAM {
        return Outcome::ProgramUnavailable;
    }
    if call.version < VERSIONS.0 || call.version > VERSIONS.1 {
        return Outcome::ProgramMismatch;
    }
    let Some(procedure) = procedure_of(call.version, call.procedure) else {
        return Outcome::ProcedureUnavailable;
    };
    match results(registered, reached, procedure, call.arguments) {
        Ok(results) => Outcome::Done(results),
        Err(_fault) => Outcome::GarbageArguments,
    }
}
