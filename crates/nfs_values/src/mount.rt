//! What MOUNT asks and tells (RFC 1813 appendix I).

ghost use Rattle.std.specs.Prelude.{◌≡◌, ◌≤◌, ◌<◌};
ghost use Rattle.nfs_model.specs.Serial.Mount.{volume_path};

use crate::handle::FileHandle;
use crate::name::Name;

/// A call of MOUNT (RFC 1813 appendix I, section 5.2), but for NULL.
pub enum MountCall {
    /// MNT, of a path.
    Mount { path: Name },
    /// DUMP.
    ListMounts,
    /// EXPORT.
    ListExports,
    /// UMNT, whose path isn't kept, and UMNTALL: mounts aren't kept, so there is nothing to undo.
    Unmount,
}

// By hand, so that crates above have no proof of the drop of each of its parts.
impl Drop for MountCall {
    fn drop(self) {
        match self {
            MountCall::Mount { path: _ } => {}
            MountCall::ListMounts => {}
            MountCall::ListExports => {}
            MountCall::Unmount => {}
        }
    }
}

/// mountres3_ok (RFC 1813 appendix I, section 5.2.1), whose flavors are AUTH_SYS and AUTH_NONE.
#[derive(Drop)]
pub struct MountResults {
    pub handle: FileHandle,
}

/// What EXPORT tells (RFC 1813 appendix I, section 5.2.5): the paths of this many volumes, from the
/// first on.
#[derive(Clone, Copy)]
pub struct Exports {
    pub volumes: u32,
    pub ghost few: { volumes ≤ 8 },
}

/// The path of a volume: `/vol` and the digit of its number (our profile).
pub fn export_path(volume: u32) -> [u8; 5]
    ensures { volume < 10 → result ≡ volume_path volume }
{
    [b'/', b'v', b'o', b'l', b'0' + (volume % 10) as u8]
}
