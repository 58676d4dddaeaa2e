//! Items at the front of bytes, each with the bytes behind it.

ghost use Rattle.xdr.specs.Shape.{Word, Fixed, Opaque};
ghost use Rattle.xdr.specs.Reading.{read};
ghost use Rattle.rpc_msg.specs.Seen.{Says, with_rest};

use xdr::{Cursor, Fault};

/// An unsigned integer (RFC 4506 section 4.2).
pub(crate) fn word(bytes: &[u8]) -> Result<(u32, &[u8]), Fault>
    ensures { Says (with_rest (λ x. x)) (λ f. f) result (read Word bytes.now) }
{
    let mut from = Cursor::new(bytes);
    let number = from.u32()?;
    Ok((number, from.rest()))
}

/// This many bytes, and their padding (RFC 4506 section 4.9).
pub(crate) fn fixed(bytes: &[u8], size: u32) -> Result<(&[u8], &[u8]), Fault>
    ensures { Says (with_rest (λ x. x.now)) (λ f. f) result (read (Fixed size) bytes.now) }
{
    let mut from = Cursor::new(bytes);
    let item = from.fixed(size)?;
    Ok((item, from.rest()))
}

/// A length of at most `most`, that many bytes, and their padding (RFC 4506 section 4.10).
pub(crate) fn opaque(bytes: &[u8], most: u32) -> Result<(&[u8], &[u8]), Fault>
    ensures { Says (with_rest (λ x. x.now)) (λ f. f) result (read (Opaque most) bytes.now) }
{
    let mut from = Cursor::new(bytes);
    let item = from.opaque(most)?;
    Ok((item, from.rest()))
}
