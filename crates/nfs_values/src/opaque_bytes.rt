//! Bytes of handles that name nothing.

ghost use Rattle.std.specs.Prelude.{◌≡◌, ◌-◌, ◌≤◌, ◌++◌, length, replicate};

use std::marker::Model;

/// At most 64 bytes, kept in place.
#[derive(Drop)]
pub(crate) struct OpaqueBytes {
    bytes: [u8; 64],
    size: u8,
}

impl Model for OpaqueBytes {
    ghost use Rattle.std.specs.Prelude.{List, ℕ};
    ghost use Rattle.nfs_values.specs.OpaqueBytes.{opaque_bytes, IsOpaque};

    ghost Value = { List ℕ };

    ghost view = { opaque_bytes };

    ghost invariant = { IsOpaque };
}

/// These bytes, and zeros behind them.
#[tactic(auto, using(crate::proofs::Zeros::drop_opaque_zeros))]
fn with_zeros(bytes: &[u8]) -> [u8; 64]
    requires { length bytes.now ≤ 64 }
    ensures { result ≡ bytes.now ++ replicate (64 - length bytes.now) 0 }
{
    let mut all = [0; 64];
    all[..bytes.len()].copy_from_slice(bytes);
    all
}

impl OpaqueBytes {
    /// These bytes.
    #[tactic(auto, using(crate::proofs::Zeros::opaque_with_zeros))]
    pub(crate) fn new(bytes: &[u8]) -> OpaqueBytes
        requires { length bytes.now ≤ 64 }
        ensures { result ≡ bytes.now }
    {
        OpaqueBytes {
            bytes: with_zeros(bytes),
            size: bytes.len() as u8,
        }
    }

    /// The bytes.
    pub(crate) fn as_bytes(&self) -> &[u8]
        ensures value { result.now ≡ self.now }
        ensures most { length result.now ≤ 64 }
    {
        &self.bytes[..self.size as usize]
    }
}
