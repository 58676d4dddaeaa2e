//! Writing items behind the bytes of a vector. Each call appends its whole item or nothing.

ghost use Rattle.std.specs.Prelude.{◌≡◌, ◌+◌, ◌≤◌, ◌<◌, ◌^◌, ◌++◌, length, IsOk, OnOk, OnErr};
ghost use Rattle.std.specs.Prelude.{vec_len, vec_capacity};
ghost use Rattle.xdr.specs.Shape.{padding, padded, counted, spelling, Word, Hyper, Boolean};

use byteorder::{BigEndian, ByteOrder};
use std::alloc::AllocError;

/// How many zero bytes follow `size` bytes.
pub(crate) fn padding_of(size: usize) -> usize
    ensures padding { result ≡ padding size }
    ensures few { result < 4 }
{
    (4 - size % 4) % 4
}

/// An unsigned integer (RFC 4506, section 4.2).
pub fn put_u32(out: &mut Vec<u8>, number: u32) -> Result<(), AllocError>
    ensures ok { OnOk result (out.new.items ≡ out.old.items ++ spelling Word number) }
    ensures err { OnErr result (out.new.items ≡ out.old.items) }
    ensures succeeds { vec_len out.old + 4 ≤ vec_capacity out.old → IsOk result }
    ensures capacity { vec_capacity out.old ≤ vec_capacity out.new }
{
    let mut bytes = [0; 4];
    BigEndian::write_u32(&mut bytes, number);
    out.extend_from_slice(&bytes)
}

/// An unsigned hyper integer (RFC 4506, section 4.5).
pub fn put_u64(out: &mut Vec<u8>, number: u64) -> Result<(), AllocError>
    ensures ok { OnOk result (out.new.items ≡ out.old.items ++ spelling Hyper number) }
    ensures err { OnErr result (out.new.items ≡ out.old.items) }
    ensures succeeds { vec_len out.old + 8 ≤ vec_capacity out.old → IsOk result }
    ensures capacity { vec_capacity out.old ≤ vec_capacity out.new }
{
    let mut bytes = [0; 8];
    BigEndian::write_u64(&mut bytes, number);
    out.extend_from_slice(&bytes)
}

/// A boolean (RFC 4506, section 4.4).
pub fn put_bool(out: &mut Vec<u8>, value: bool) -> Result<(), AllocError>
    ensures ok { OnOk result (out.new.items ≡ out.old.items ++ spelling Boolean value) }
    ensures err { OnErr result (out.new.items ≡ out.old.items) }
    ensures succeeds { vec_len out.old + 4 ≤ vec_capacity out.old → IsOk result }
    ensures capacity { vec_capacity out.old ≤ vec_capacity out.new }
{
    put_u32(out, u32::from(value))
}

/// The bytes and their padding (RFC 4506, section 4.9).
#[tactic(auto, using(crate::proofs::Padding::padded_is))]
pub fn put_fixed(out: &mut Vec<u8>, bytes: &[u8]) -> Result<(), AllocError>
    ensures ok { OnOk result (out.new.items ≡ out.old.items ++ padded bytes.now) }
    ensures err { OnErr result (out.new.items ≡ out.old.items) }
    ensures succeeds { vec_len out.old + length (padded bytes.now) ≤ vec_capacity out.old
        → IsOk result }
    ensures capacity { vec_capacity out.old ≤ vec_capacity out.new }
{
    let padding = padding_of(bytes.len());
    out.try_reserve(bytes.len().saturating_add(padding))?;
    out.extend_from_slice(bytes)?;
    out.extend_from_slice(&[0; 4][..padding])
}

/// The length of the bytes, the bytes and their padding (RFC 4506, section 4.10).
#[tactic(auto, using(crate::proofs::Padding::padded_is))]
pub fn put_opaque(out: &mut Vec<u8>, bytes: &[u8]) -> Result<(), AllocError>
    requires { length bytes.now < 2 ^ 32 }
    ensures ok { OnOk result (out.new.items ≡ out.old.items ++ counted bytes.now) }
    ensures err { OnErr result (out.new.items ≡ out.old.items) }
    ensures succeeds { vec_len out.old + length (counted bytes.now) ≤ vec_capacity out.old
        → IsOk result }
    ensures capacity { vec_capacity out.old ≤ vec_capacity out.new }
{
    out.try_reserve(4 + bytes.len() + padding_of(bytes.len()))?;
    put_u32(out, bytes.len() as u32)?;
    put_fixed(out, bytes)
}
