ghost use Rattle.std.specs.Prelude.{◌≡◌, true, ◌+◌, ◌≤◌, ◌++◌, length, vec_len, vec_capacity, IfOk};
ghost use Rattle.std.specs.Prelude.{IsOk, OnOk, OnErr, List, ℕ, None, IfSome};
ghost use Rattle.rpc_record.specs.Records.{limit, header, fragment, BeginsWith, IsRecord};

use crate::position::{LAST_FRAGMENT, RECORD_LIMIT};
use byteorder::{BigEndian, ByteOrder};
use std::alloc::{AllocError, Global};

/// Appends the header of a record that is one fragment, whose data the caller appends. Appends all
/// four bytes or none.
pub fn put_header(out: &mut Vec<u8>, size: u32) -> Result<(), AllocError>
    requires { size ≤ limit }
    ensures ok { OnOk result (out.new.items ≡ out.old.items ++ header true size) }
    ensures err { OnErr result (out.new.items ≡ out.old.items) }
    ensures succeeds { vec_len out.old + 4 ≤ vec_capacity out.old → IsOk result }
    ensures capacity { vec_capacity out.old ≤ vec_capacity out.new }
{
    let mut header = [0; 4];
    BigEndian::write_u32(&mut header, size + LAST_FRAGMENT);
    out.extend_from_slice(&header)
}

/// A record of these bytes, as one fragment.
pub fn frame(alloc: Global, bytes: &[u8]) -> Result<Vec<u8>, AllocError>
    requires { length bytes.now ≤ limit }
    ensures framed { IfOk result (λ framed. framed.items ≡ fragment true bytes.now) }
    ensures spells { IfOk result (λ framed. IsRecord bytes.now framed.items) }
{
    let mut framed = Vec::with_capacity(alloc, bytes.len() + 4)?;
    put_header(&mut framed, bytes.len() as u32)?;
    framed.extend_from_slice(bytes)?;
    Ok(framed)
}

/// The record that bytes begin with as one fragment, none of whose bytes is missing.
pub(crate) fn first_record(bytes: &[u8]) -> Option<&[u8]>
    ensures begins { IfSome result (λ made. BeginsWith made.now bytes.now) }
    ensures none { result ≡ None → (made : List ℕ) → BeginsWith made bytes.now → ⊥ }
{
    if bytes.len() < 4 {
        return None;
    }
    let number = u32::from_be_bytes([bytes[0], bytes[1], bytes[2], bytes[3]]);
    if number < LAST_FRAGMENT {
        return None;
    }
    let size = (number - LAST_FRAGMENT) as usize;
    if RECORD_LIMIT < size || bytes.len() - 4 < size {
        return None;
    }
    Some(&bytes[4..4 + size])
}
