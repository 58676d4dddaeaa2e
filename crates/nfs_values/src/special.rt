//! What is neither a regular file nor a directory.

ghost use Rattle.std.specs.Prelude.{◌≡◌};

/// The major and minor numbers of a device (specdata3, RFC 1813 section 2.6).
#[derive(Clone, Copy, Debug, PartialEq, Eq)]
pub struct Device {
    pub major: u32,
    pub minor: u32,
}

impl Device {
    /// What is shown of what isn't a device.
    pub const NONE: Device = Device { major: 0, minor: 0 };
}

/// What is neither a regular file nor a directory (ftype3, RFC 1813 section 2.6).
#[derive(Clone, Copy, Debug, PartialEq, Eq)]
pub enum SpecialType {
    SymbolicLink,
    Fifo,
    Socket,
    BlockDevice(Device),
    CharacterDevice(Device),
}

impl SpecialType {
    ghost use Rattle.nfs_values.specs.Special.{device_of, special_of, special_word};
    ghost use Rattle.nfs_values.specs.Special.{special_device};

    /// The number of a kind.
    pub fn word(self) -> u32
        ensures { result ≡ special_word (special_of self) }
    {
        match self {
            SpecialType::BlockDevice(_) => 3,
            SpecialType::CharacterDevice(_) => 4,
            SpecialType::SymbolicLink => 5,
            SpecialType::Socket => 6,
            SpecialType::Fifo => 7,
        }
    }

    /// The numbers of a device, zero for all else (rdev of fattr3, RFC 1813 section 2.6).
    pub fn device(self) -> Device
        ensures { device_of result ≡ special_device (special_of self) }
    {
        match self {
            SpecialType::SymbolicLink => Device::NONE,
            SpecialType::Fifo => Device::NONE,
            SpecialType::Socket => Device::NONE,
            SpecialType::BlockDevice(device) => device,
            SpecialType::CharacterDevice(device) => device,
        }
    }
}
