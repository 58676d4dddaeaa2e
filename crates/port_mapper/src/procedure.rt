//! The procedures of the port mapper (RFC 1833 sections 2.1 and 3.1).

ghost use Rattle.std.specs.Prelude.{◌≡◌};
ghost use Rattle.port_mapper.specs.Asking.{binding_procedure, mapping_procedure, procedure_of};

/// A procedure that is offered.
#[derive(Clone, Copy, PartialEq, Eq, Debug)]
pub(crate) enum Procedure {
    /// NULL, in each version.
    Null,
    /// SET and UNSET of version 2.
    SetMapping,
    /// GETPORT of version 2.
    GetPort,
    /// DUMP of version 2.
    DumpMappings,
    /// SET and UNSET of versions 3 and 4.
    SetBinding,
    /// GETADDR of versions 3 and 4.
    GetAddress,
    /// DUMP of versions 3 and 4.
    DumpBindings,
}

/// The procedure of a number in version 2, where it is offered.
fn mapping_procedure(number: u32) -> Option<Procedure>
    ensures { result ≡ mapping_procedure number }
{
    match number {
        0 => Some(Procedure::Null),
        1 | 2 => Some(Procedure::SetMapping),
        3 => Some(Procedure::GetPort),
        4 => Some(Procedure::DumpMappings),
        _ => None,
    }
}

/// The procedure of a number in versions 3 and 4, where it is offered.
fn binding_procedure(number: u32) -> Option<Procedure>
    ensures { result ≡ binding_procedure number }
{
    match number {
        0 => Some(Procedure::Null),
        1 | 2 => Some(Procedure::SetBinding),
        3 => Some(Procedure::GetAddress),
        4 => Some(Procedure::DumpBindings),
        _ => None,
    }
}

/// The procedure of a number in version 2, 3 or 4, where it is offered.
pub(crate) fn procedure_of(version: u32, number: u32) -> Option<Procedure>
    ensures { result ≡ procedure_of version number }
{
    if version == 2 {
        mapping_procedure(number)
    } else {
        binding_procedure(number)
    }
}
