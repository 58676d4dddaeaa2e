//! What comes of writing bytes on the parcels under Volume.

/// What comes of writing bytes where memory doesn't run out. Unless they are written nothing has
/// changed.
#[derive(Drop)]
pub(crate) enum Extension {
    Written,
    /// Files and holes would be more than all blocks of the volume.
    NoSpace,
    /// Too few blocks for the holes are outside of hands.
    Short,
}
