//! What is registered (RFC 1833 section 3).

ghost use Rattle.std.specs.Prelude.{◌≡◌, find};
ghost use Rattle.port_mapper.specs.Registered.{at_port, beside, is_mapping, is_version, number_of};
ghost use Rattle.port_mapper.specs.Registered.{port_of};

/// The port of a port mapper (RFC 1833 section 3.1).
pub const MAPPER_PORT: u16 = 111;

/// The program of a port mapper (RFC 1833 section 3.1).
pub(crate) const MAPPER_PROGRAM: u32 = 100_000;

/// The program of NFS, and its version (RFC 1813 section 2.2).
const NFS: (u32, u32) = (100_003, 3);

/// The program of MOUNT, and its version (RFC 1813 appendix I, section 5.1.2).
const MOUNT: (u32, u32) = (100_005, 3);

/// A protocol by which calls come.
#[derive(Clone, Copy, PartialEq, Eq, Debug)]
pub enum Protocol {
    Tcp,
    Udp,
}

/// A version of a program that is served over a protocol at a port.
#[derive(Clone, Copy, PartialEq, Eq, Debug)]
pub struct Registration {
    pub program: u32,
    pub version: u32,
    pub protocol: Protocol,
    pub port: u16,
}

impl Protocol {
    ghost use Rattle.port_mapper.specs.Registered.{number_of};

    /// Its number in a mapping: IPPROTO_TCP or IPPROTO_UDP (RFC 1833 section 3.1).
    pub(crate) fn number(self) -> u32
        ensures { result ≡ number_of self }
    {
        match self {
            Protocol::Tcp => 6,
            Protocol::Udp => 17,
        }
    }
}

/// A version of a program over a protocol, at a port.
fn at_port(program: u32, version: u32, protocol: Protocol, port: u16) -> Registration
    ensures { result ≡ at_port program version protocol port }
{
    Registration {
        program,
        version,
        protocol,
        port,
    }
}

/// A version of the port mapper itself, over a protocol.
fn mapper(version: u32, protocol: Protocol) -> Registration
    ensures { result ≡ at_port 100000 version protocol 111 }
{
    at_port(MAPPER_PROGRAM, version, protocol, MAPPER_PORT)
}

/// What is registered beside a server of NFS version 3 and MOUNT version 3 at a port of TCP.
pub fn beside(port: u16) -> [Registration; 8]
    ensures { result ≡ beside port }
{
    [
        mapper(4, Protocol::Tcp),
        mapper(3, Protocol::Tcp),
        mapper(2, Protocol::Tcp),
        mapper(4, Protocol::Udp),
        mapper(3, Protocol::Udp),
        mapper(2, Protocol::Udp),
        at_port(NFS.0, NFS.1, Protocol::Tcp, port),
        at_port(MOUNT.0, MOUNT.1, Protocol::Tcp, port),
    ]
}

/// Whether it is this version of this program.
pub(crate) fn is_version(program: u32, version: u32, registration: &Registration) -> bool
    ensures { result ≡ is_version program version registration.now }
{
    registration.program == program && registration.version == version
}

/// Whether it is this version of this program over the protocol of this number.
fn is_mapping(program: u32, version: u32, protocol: u32, registration: &Registration) -> bool
    ensures { result ≡ is_mapping program version protocol registration.now }
{
    is_version(program, version, registration) && registration.protocol.number() == protocol
}

/// The first that is this version of this program over the protocol of this number.
fn first_mapping(
    registered: &[Registration],
    program: u32,
    version: u32,
    protocol: u32,
) -> Option<Registration>
    ensures { result ≡ find (is_mapping program version protocol) registered.now }
{
    for each in registered {
        if is_mapping(program, version, protocol, each) {
            return Some(*each);
        }
    }
    None
}

/// The port of a version of a program over the protocol of a number, or 0 where it isn't registered
/// (GETPORT, RFC 1833 section 3.2).
pub(crate) fn port_of(registered: &[Registration], program: u32, version: u32, protocol: u32) -> u16
    ensures { result ≡ port_of registered.now program version protocol }
{
    match first_mapping(registered, program, version, protocol) {
        Some(found) => found.port,
        None => 0,
    }
}
