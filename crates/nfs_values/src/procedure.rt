//! The procedures of the programs.

ghost use Rattle.std.specs.Prelude.{◌≡◌, ◌≢◌, ◌<◌, IfSome, None, length};

/// The program number of NFS (RFC 1813 section 2.2).
pub const NFS_PROGRAM: u32 = 100003;

/// The program number of the admin calls (our profile).
pub const ADMIN_PROGRAM: u32 = 0x2000_0001;

/// The program number of MOUNT (RFC 1813 appendix I, section 5.1.2).
pub const MOUNT_PROGRAM: u32 = 100005;

/// How many procedures there are.
pub const PROCEDURES: usize = 32;

/// A procedure, offered or not.
#[derive(Clone, Copy)]
pub enum Procedure {
    /// NULL of NFS (RFC 1813 section 3.3.0).
    Null,
    /// GETATTR (RFC 1813 section 3.3.1).
    GetAttributes,
    /// SETATTR (RFC 1813 section 3.3.2).
    SetAttributes,
    /// LOOKUP (RFC 1813 section 3.3.3).
    Lookup,
    /// ACCESS (RFC 1813 section 3.3.4).
    CheckAccess,
    /// READLINK (RFC 1813 section 3.3.5).
    ReadLink,
    /// READ (RFC 1813 section 3.3.6).
    Read,
    /// WRITE (RFC 1813 section 3.3.7).
    Write,
    /// CREATE (RFC 1813 section 3.3.8).
    Create,
    /// MKDIR (RFC 1813 section 3.3.9).
    MakeDirectory,
    /// SYMLINK (RFC 1813 section 3.3.10).
    MakeSymbolicLink,
    /// MKNOD (RFC 1813 section 3.3.11).
    MakeDevice,
    /// REMOVE (RFC 1813 section 3.3.12).
    Remove,
    /// RMDIR (RFC 1813 section 3.3.13).
    RemoveDirectory,
    /// RENAME (RFC 1813 section 3.3.14).
    Rename,
    /// LINK (RFC 1813 section 3.3.15).
    MakeLink,
    /// READDIR (RFC 1813 section 3.3.16).
    ReadDirectory,
    /// READDIRPLUS (RFC 1813 section 3.3.17).
    ReadDirectoryPlus,
    /// FSSTAT (RFC 1813 section 3.3.18).
    FilesystemStatus,
    /// FSINFO (RFC 1813 section 3.3.19).
    FilesystemInfo,
    /// PATHCONF (RFC 1813 section 3.3.20).
    PathConfiguration,
    /// COMMIT (RFC 1813 section 3.3.21).
    Commit,
    /// NULL of MOUNT (RFC 1813 appendix I, section 5.2.0).
    MountNull,
    /// MNT of MOUNT (section 5.2.1).
    Mount,
    /// DUMP of MOUNT (section 5.2.2).
    ListMounts,
    /// UMNT of MOUNT (section 5.2.3).
    Unmount,
    /// UMNTALL of MOUNT (section 5.2.4).
    UnmountAll,
    /// EXPORT of MOUNT (section 5.2.5).
    ListExports,
    /// NULL of the admin program.
    AdminNull,
    /// CENSUS of the admin program: the blocks of every volume.
    Census,
    /// GROW of the admin program: more ranges for a volume.
    Grow,
    /// STOP of the admin program: the end of the server.
    Stop,
}

impl Procedure {
    ghost use Rattle.nfs_values.specs.Procedure.{all_procedures, numbers_of, place_of};
    ghost use Rattle.nfs_values.specs.declared.procedure.Procedure.{Procedure as Known};

    /// The procedure of this number in this program, offered or not.
    pub fn known(program: u32, number: u32) -> Option<Procedure>
        ensures found { IfSome result (λ p. numbers_of p ≡ (program, number)) }
        ensures none { result ≡ None → (p : Known) → numbers_of p ≢ (program, number) }
    {
        match (program, number) {
            (NFS_PROGRAM, 0) => Some(Procedure::Null),
            (NFS_PROGRAM, 1) => Some(Procedure::GetAttributes),
            (NFS_PROGRAM, 2) => Some(Procedure::SetAttributes),
            (NFS_PROGRAM, 3) => Some(Procedure::Lookup),
            (NFS_PROGRAM, 4) => Some(Procedure::CheckAccess),
            (NFS_PROGRAM, 5) => Some(Procedure::ReadLink),
            (NFS_PROGRAM, 6) => Some(Procedure::Read),
            (NFS_PROGRAM, 7) => Some(Procedure::Write),
            (NFS_PROGRAM, 8) => Some(Procedure::Create),
            (NFS_PROGRAM, 9) => Some(Procedure::MakeDirectory),
            (NFS_PROGRAM, 10) => Some(Procedure::MakeSymbolicLink),
            (NFS_PROGRAM, 11) => Some(Procedure::MakeDevice),
            (NFS_PROGRAM, 12) => Some(Procedure::Remove),
            (NFS_PROGRAM, 13) => Some(Procedure::RemoveDirectory),
            (NFS_PROGRAM, 14) => Some(Procedure::Rename),
            (NFS_PROGRAM, 15) => Some(Procedure::MakeLink),
            (NFS_PROGRAM, 16) => Some(Procedure::ReadDirectory),
            (NFS_PROGRAM, 17) => Some(Procedure::ReadDirectoryPlus),
            (NFS_PROGRAM, 18) => Some(Procedure::FilesystemStatus),
            (NFS_PROGRAM, 19) => Some(Procedure::FilesystemInfo),
            (NFS_PROGRAM, 20) => Some(Procedure::PathConfiguration),
            (NFS_PROGRAM, 21) => Some(Procedure::Commit),
            (MOUNT_PROGRAM, 0) => Some(Procedure::MountNull),
            (MOUNT_PROGRAM, 1) => Some(Procedure::Mount),
            (MOUNT_PROGRAM, 2) => Some(Procedure::ListMounts),
            (MOUNT_PROGRAM, 3) => Some(Procedure::Unmount),
            (MOUNT_PROGRAM, 4) => Some(Procedure::UnmountAll),
            (MOUNT_PROGRAM, 5) => Some(Procedure::ListExports),
            (ADMIN_PROGRAM, 0) => Some(Procedure::AdminNull),
            (ADMIN_PROGRAM, 1) => Some(Procedure::Census),
            (ADMIN_PROGRAM, 2) => Some(Procedure::Grow),
            (ADMIN_PROGRAM, 3) => Some(Procedure::Stop),
            _ => None,
        }
    }

    /// All of them.
    pub const ALL: [Procedure; PROCEDURES] = [
        Procedure::Null,
        Procedure::GetAttributes,
        Procedure::SetAttributes,
        Procedure::Lookup,
        Procedure::CheckAccess,
        Procedure::ReadLink,
        Procedure::Read,
        Procedure::Write,
        Procedure::Create,
        Procedure::MakeDirectory,
        Procedure::MakeSymbolicLink,
        Procedure::MakeDevice,
        Procedure::Remove,
        Procedure::RemoveDirectory,
        Procedure::Rename,
        Procedure::MakeLink,
        Procedure::ReadDirectory,
        Procedure::ReadDirectoryPlus,
        Procedure::FilesystemStatus,
        Procedure::FilesystemInfo,
        Procedure::PathConfiguration,
        Procedure::Commit,
        Procedure::MountNull,
        Procedure::Mount,
        Procedure::ListMounts,
        Procedure::Unmount,
        Procedure::UnmountAll,
        Procedure::ListExports,
        Procedure::AdminNull,
        Procedure::Census,
        Procedure::Grow,
        Procedure::Stop,
    ];

    /// The number of its program.
    pub fn program(self) -> u32
        ensures { result ≡ (numbers_of self).0 }
    {
        match self {
            Procedure::MountNull
            | Procedure::Mount
            | Procedure::ListMounts
            | Procedure::Unmount
            | Procedure::UnmountAll
            | Procedure::ListExports => MOUNT_PROGRAM,
            Procedure::AdminNull | Procedure::Census | Procedure::Grow | Procedure::Stop => {
                ADMIN_PROGRAM
            }
            _ => NFS_PROGRAM,
        }
    }

    /// Its place among all of them.
    pub fn place(self) -> usize
        ensures place { result ≡ place_of self }
        ensures within { result < length all_procedures }
    {
        self as usize
    }

    /// Its name, as the standards spell it; those of the admin program are ours.
    pub fn name(self) -> &'static str {
        match self {
            Procedure::Null => "NULL",
            Procedure::GetAttributes => "GETATTR",
            Procedure::SetAttributes => "SETATTR",
            Procedure::Lookup => "LOOKUP",
            Procedure::CheckAccess => "ACCESS",
            Procedure::ReadLink => "READLINK",
            Procedure::Read => "READ",
            Procedure::Write => "WRITE",
            Procedure::Create => "CREATE",
            Procedure::MakeDirectory => "MKDIR",
            Procedure::MakeSymbolicLink => "SYMLINK",
            Procedure::MakeDevice => "MKNOD",
            Procedure::Remove => "REMOVE",
            Procedure::RemoveDirectory => "RMDIR",
            Procedure::Rename => "RENAME",
            Procedure::MakeLink => "LINK",
            Procedure::ReadDirectory => "READDIR",
            Procedure::ReadDirectoryPlus => "READDIRPLUS",
            Procedure::FilesystemStatus => "FSSTAT",
            Procedure::FilesystemInfo => "FSINFO",
            Procedure::PathConfiguration => "PATHCONF",
            Procedure::Commit => "COMMIT",
            Procedure::MountNull => "NULL",
            Procedure::Mount => "MNT",
            Procedure::ListMounts => "DUMP",
            Procedure::Unmount => "UMNT",
            Procedure::UnmountAll => "UMNTALL",
            Procedure::ListExports => "EXPORT",
            Procedure::AdminNull => "NULL",
            Procedure::Census => "CENSUS",
            Procedure::Grow => "GROW",
            Procedure::Stop => "STOP",
        }
    }
}
