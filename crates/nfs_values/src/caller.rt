//! Who makes a call.

use crate::credential::Credential;

/// Where calls come from: the address and the port at the other end of a connection.
#[derive(Clone, Copy, PartialEq, Eq)]
pub struct PeerAddress {
    /// An IPv4 address as its 32 bits, an IPv6 one as its 128.
    pub address: u128,
    pub port: u16,
}

impl PeerAddress {
    /// Of a call that comes over no connection.
    pub const NONE: PeerAddress = PeerAddress {
        address: 0,
        port: 0,
    };
}

/// Who makes a call: whom it acts for, and what tells one call of a client from its others
/// (RFC 5531 section 9, RFC 1813 section 4.5).
#[derive(Clone, Copy)]
pub struct Caller {
    pub credential: Credential,
    /// The number of its record.
    pub xid: u32,
    pub peer: PeerAddress,
    /// Whether the owner, the groups and the mode of objects are asked.
    pub is_checked: bool,
    /// Whether it may change nothing.
    pub reads_only: bool,
}

impl Caller {
    /// Who makes a call without a credential, of number 0, over no connection, and isn't checked.
    pub const NOBODY: Caller = Caller {
        credential: Credential::NOBODY,
        xid: 0,
        peer: PeerAddress::NONE,
        is_checked: false,
        reads_only: false,
    };
}
