//! Networks.

ghost use Rattle.std.specs.Prelude.{◌≡◌, ◌↔◌, ◌≤◌, ◌<◌, IsTrue};
ghost use Rattle.server_options.specs.Networks.{mapped_in, width_of, Agree, IsIn, IsMapped};

use std::fmt;
use std::net::{IpAddr, Ipv4Addr};

/// The bits before an IPv4 address in IPv6's form.
const MAPPED_BITS: u32 = 96;

/// The addresses whose first bits are those of one address (RFC 4632 section 3.1).
#[derive(Clone, Copy)]
pub struct Network {
    pub address: IpAddr,
    pub bits: u32,
    pub ghost fits: { bits ≤ width_of address },
}

/// How many bits an address has.
fn width_of(address: &IpAddr) -> u32
    ensures { result ≡ width_of address.now }
{
    match address {
        IpAddr::V4(_) => 32,
        IpAddr::V6(_) => 128,
    }
}

/// The number of bits that a text names: its digits alone, without a 0 before them.
fn bits_in(text: &str) -> Option<u32> {
    if text.starts_with('+') || text.len() > 1 && text.starts_with('0') {
        return None;
    }
    text.parse::<u32>().ok()
}

/// Whether two numbers of 32 bits have the same first ones.
fn agree_of_four(first: u32, second: u32, bits: u32) -> bool
    requires { bits ≤ 32 }
    ensures { IsTrue result ↔ Agree 32 bits first second }
{
    if bits == 0 {
        return true;
    }
    first >> (32 - bits) == second >> (32 - bits)
}

/// Whether two numbers of 128 bits have the same first ones.
fn agree_of_six(first: u128, second: u128, bits: u32) -> bool
    requires { bits ≤ 128 }
    ensures { IsTrue result ↔ Agree 128 bits first second }
{
    if bits == 0 {
        return true;
    }
    first >> (128 - bits) == second >> (128 - bits)
}

/// Whether a number of 128 bits is an IPv4 address in IPv6's form.
pub(crate) fn is_mapped(number: u128) -> bool
    ensures { IsTrue result ↔ IsMapped number }
{
    number >> 32 == 65_535
}

/// The IPv4 address in it.
pub(crate) fn mapped_in(number: u128) -> u32
    ensures { result ≡ mapped_in number }
{
    (number % (1 << 32)) as u32
}

impl Network {
    ghost use Rattle.std.specs.Prelude.{IfNone, IfSome};

    /// The addresses that have the first bits of this one, this many, where it has as many.
    pub fn new(address: IpAddr, bits: u32) -> Option<Network>
        ensures given { IfSome result (λ network. network.address ≡ address
            × network.bits ≡ bits) }
        ensures fits { IfSome result (λ network. bits ≤ width_of address) }
        ensures refused { IfNone result (width_of address < bits) }
    {
        if bits > width_of(&address) {
            return None;
        }
        Some(Network { address, bits })
    }

    /// An address alone.
    pub fn of_one(address: IpAddr) -> Network
        ensures address { result.address ≡ address }
        ensures bits { result.bits ≡ width_of address }
    {
        let bits = width_of(&address);
        Network { address, bits }
    }

    /// The network that a text names: an address, or one with how many of its bits count, as
    /// `10.0.0.0/8`. The bits behind these are 0, and their number has no sign and no 0 before it.
    pub fn read(text: &str) -> Option<Network> {
        let (address, bits) = match text.split_once('/') {
            Some((address, bits)) => (address, Some(bits)),
            None => (text, None),
        };
        let address = address.parse::<IpAddr>().ok()?;
        let bits = match bits {
            Some(bits) => bits_in(bits)?,
            None => width_of(&address),
        };
        let network = Network::new(address, bits)?;
        if network.begins_there() {
            Some(network.of_ipv4())
        } else {
            None
        }
    }

    /// Whether its address is its first one, so that all bits behind those that count are 0.
    fn begins_there(&self) -> bool {
        let behind = width_of(&self.address).saturating_sub(self.bits);
        match &self.address {
            IpAddr::V4(own) => own.to_bits().trailing_zeros() >= behind,
            IpAddr::V6(own) => own.to_bits().trailing_zeros() >= behind,
        }
    }

    /// The same network, of IPv4 where it has only IPv4 addresses in IPv6's form.
    fn of_ipv4(self) -> Network {
        let IpAddr::V6(own) = self.address else {
            return self;
        };
        let number = own.to_bits();
        if self.bits < MAPPED_BITS || !is_mapped(number) {
            return self;
        }
        let address = IpAddr::V4(Ipv4Addr::from_bits(mapped_in(number)));
        match Network::new(address, self.bits - MAPPED_BITS) {
            Some(network) => network,
            None => self,
        }
    }

    /// Whether an address is in it. An IPv4 address in IPv6's form is that IPv4 address.
    pub fn has(&self, address: &IpAddr) -> bool
        ensures { IsTrue result ↔ IsIn self.now.address self.now.bits address.now }
    {
        match (&self.address, address) {
            (IpAddr::V4(own), IpAddr::V4(other)) => {
                agree_of_four(own.to_bits(), other.to_bits(), self.bits)
            }
            (IpAddr::V4(own), IpAddr::V6(other)) => {
                let number = other.to_bits();
                is_mapped(number) && agree_of_four(own.to_bits(), mapped_in(number), self.bits)
            }
            (IpAddr::V6(own), IpAddr::V6(other)) => {
                let number = other.to_bits();
                !is_mapped(number) && agree_of_six(own.to_bits(), number, self.bits)
            }
            (IpAddr::V6(_), IpAddr::V4(_)) => false,
        }
    }
}

impl fmt::Display for Network {
    fn fmt<W: fmt::Write>(&self, f: &mut fmt::Formatter<W>) -> fmt::Result {
        let (address, bits) = (self.address, self.bits);
        write!(f, "{address}/{bits}")
    }
}
