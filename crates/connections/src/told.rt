//! What a device is asked, and what it answers.

/// What a device answered to one call.
#[derive(Clone, Copy, PartialEq, Eq, Debug)]
pub enum Told {
    /// This many bytes moved.
    Moved(usize),
    /// None did, and the device would have to wait.
    Blocked,
    /// None did, and the device failed.
    Failed,
}

/// A call of a device, with what it answered: a read with room for this many bytes, or a write of
/// this many.
#[derive(Clone, Copy, PartialEq, Eq, Debug)]
pub enum DeviceCall {
    Read(usize, Told),
    Write(usize, Told),
}
