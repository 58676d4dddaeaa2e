//! What calls are on, by which it is known where they may run.

use crate::handle::FileHandle;
use crate::number::VolumeNumber;

/// What a call is on (our profile). The handles, good or bad, stand in the call.
#[derive(Clone, Copy)]
pub enum Route<'a> {
    /// On no state.
    AtOnce,
    /// Names and attributes of one volume, which the handle names.
    Names {
        handle: &'a FileHandle,
    },
    /// Bytes of a file, which are read where they lie.
    BytesRead {
        handle: &'a FileHandle,
        offset: u64,
        count: u32,
    },
    /// Bytes of a file, which are written where they lie or above.
    BytesWritten {
        handle: &'a FileHandle,
        offset: u64,
        count: u32,
    },
    /// Names and attributes of one volume, which two handles name.
    TwoHandles {
        from: &'a FileHandle,
        to: &'a FileHandle,
    },
    /// A whole volume, which the handle names.
    Volume {
        handle: &'a FileHandle,
    },
    /// The aggregate of a volume.
    Aggregate {
        volume: VolumeNumber,
    },
    /// All volumes.
    Everything,
}
