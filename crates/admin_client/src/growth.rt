//! What GROW tells.

ghost use Rattle.xdr.specs.Reading.{Gives, read};
ghost use Rattle.admin_client.specs.Telling.{growth_shape, growth_value};

use xdr::{Cursor, Fault};

/// What GROW tells (our profile).
#[derive(Clone, Copy, PartialEq, Eq)]
pub enum Growth {
    /// The volume has this many blocks now, of 4,096 bytes.
    Grown { blocks: u64 },
    /// NOENT: there is no such volume.
    NoVolume,
    /// INVAL: no range was asked for.
    NoRange,
    /// FBIG: the volume would have more than 16 ranges.
    TooManyRanges,
    /// NOSPC: its aggregate has fewer spare ranges.
    TooFewSpare,
}

/// Reads it: the status, and then the blocks where it is 0.
pub(crate) fn read_outcome(from: &mut Cursor<'_>) -> Result<Growth, Fault>
    ensures { Gives growth_value result (read growth_shape from.old) from.new }
{
    match from.u32()? {
        0 => Ok(Growth::Grown {
            blocks: from.u64()?,
        }),
        2 => Ok(Growth::NoVolume),
        22 => Ok(Growth::NoRange),
        27 => Ok(Growth::TooManyRanges),
        28 => Ok(Growth::TooFewSpare),
        _ => Err(Fault::BadEnum),
    }
}
