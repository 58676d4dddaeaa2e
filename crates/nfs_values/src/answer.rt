//! What replies tell.

use crate::attributes::{Attributes, Change};
use crate::bytes::BytesRead;
use crate::handle::FileHandle;
use crate::mount::{Exports, MountResults};
use crate::name::Name;
use crate::number::{Cookie, Fileid, VolumeNumber};
use crate::procedure::Procedure;
use crate::status::Status;
use crate::verifier::Verifier;

/// LOOKUP3resok (RFC 1813 section 3.3.3).
#[derive(Drop)]
pub struct LookupResults {
    pub handle: FileHandle,
    pub object: Attributes,
    pub directory: Attributes,
}

/// ACCESS3resok (RFC 1813 section 3.3.4).
#[derive(Clone, Copy)]
pub struct AccessResults {
    pub object: Attributes,
    /// Of the bits that were asked for, those that are given.
    pub given: u32,
}

/// READLINK3resok (RFC 1813 section 3.3.5).
pub struct ReadLinkResults {
    pub object: Attributes,
    /// What the link stands for.
    pub text: Name,
}

// By hand, so that crates above have no proof of the drop of each of its parts.
impl Drop for ReadLinkResults {
    fn drop(self) {
        let ReadLinkResults { object: _, text: _ } = self;
    }
}

/// READ3resok (RFC 1813 section 3.3.6), whose count is that of the bytes.
pub struct ReadResults {
    pub eof: bool,
    pub bytes: BytesRead,
}

// By hand, so that crates above have no proof of the drop of each of its parts.
impl Drop for ReadResults {
    fn drop(self) {
        let ReadResults { eof: _, bytes: _ } = self;
    }
}

/// WRITE3resok (RFC 1813 section 3.3.7); the bytes are on stable storage.
#[derive(Clone, Copy)]
pub struct WriteResults {
    pub count: u32,
    pub verifier: Verifier,
}

/// CREATE3resok, MKDIR3resok, SYMLINK3resok and MKNOD3resok (RFC 1813 sections 3.3.8 to 3.3.11).
#[derive(Drop)]
pub struct MakeResults {
    pub handle: FileHandle,
    pub object: Attributes,
    pub directory: Change,
}

/// RENAME3resok (RFC 1813 section 3.3.14), the directories.
#[derive(Clone, Copy)]
pub struct RenameResults {
    pub from: Change,
    pub to: Change,
}

/// LINK3res, where the link is made (RFC 1813 section 3.3.15): what has one more name, and the
/// directory.
#[derive(Clone, Copy)]
pub struct LinkResults {
    pub object: Attributes,
    pub directory: Change,
}

/// An entry of a directory (entry3, RFC 1813 section 3.3.16).
#[derive(Drop)]
pub struct DirectoryEntry {
    pub fileid: Fileid,
    pub name: Name,
    pub cookie: Cookie,
}

/// READDIR3resok (RFC 1813 section 3.3.16); its verifier is zero.
pub struct ReadDirectoryResults {
    pub directory: Attributes,
    pub entries: Vec<DirectoryEntry>,
    pub eof: bool,
}

// By hand, so that crates above have no proof of the drop of each of its parts.
impl Drop for ReadDirectoryResults {
    fn drop(self) {
        let ReadDirectoryResults {
            directory: _,
            entries: _,
            eof: _,
        } = self;
    }
}

/// An entry with what it names (entryplus3, RFC 1813 section 3.3.17).
#[derive(Drop)]
pub struct DirectoryEntryPlus {
    pub entry: DirectoryEntry,
    pub attributes: Option<Attributes>,
    pub handle: Option<FileHandle>,
}

/// READDIRPLUS3resok (RFC 1813 section 3.3.17); its verifier is zero.
pub struct ReadDirectoryPlusResults {
    pub directory: Attributes,
    pub entries: Vec<DirectoryEntryPlus>,
    pub eof: bool,
}

// By hand, so that crates above have no proof of the drop of each of its parts.
impl Drop for ReadDirectoryPlusResults {
    fn drop(self) {
        let ReadDirectoryPlusResults {
            directory: _,
            entries: _,
            eof: _,
        } = self;
    }
}

/// FSSTAT3resok (RFC 1813 section 3.3.18). What is free is available to every user.
#[derive(Clone, Copy)]
pub struct FilesystemStatusResults {
    pub root: Attributes,
    pub total_bytes: u64,
    pub free_bytes: u64,
    pub inodes: u64,
    pub free_inodes: u64,
}

/// FSINFO3resok (RFC 1813 section 3.3.19); what else it tells is the same of every volume.
#[derive(Clone, Copy)]
pub struct FilesystemInfoResults {
    pub root: Attributes,
    /// The largest size of a file.
    pub largest: u64,
}

/// PATHCONF3resok (RFC 1813 section 3.3.20); what else it tells is the same of every object.
#[derive(Clone, Copy)]
pub struct PathConfigurationResults {
    pub object: Attributes,
    /// Whether owners and groups are changed by some callers alone.
    pub is_chown_restricted: bool,
}

/// COMMIT3resok (RFC 1813 section 3.3.21).
#[derive(Clone, Copy)]
pub struct CommitResults {
    pub file: Change,
    pub verifier: Verifier,
}

/// What CENSUS tells of a volume, in blocks.
#[derive(Clone, Copy)]
pub struct VolumeCount {
    pub volume: VolumeNumber,
    pub total: u64,
    pub used: u64,
}

/// The results of a call, one variant for each procedure (RFC 1813 section 3.3). A failure gives
/// none of the optional parts of its arm.
pub enum Answer {
    /// NULL of NFS, of the admin program and of MOUNT, and UMNT and UMNTALL.
    Null,
    GetAttributes(Result<Attributes, Status>),
    SetAttributes(Result<Change, Status>),
    Lookup(Result<LookupResults, Status>),
    CheckAccess(Result<AccessResults, Status>),
    ReadLink(Result<ReadLinkResults, Status>),
    Read(Result<ReadResults, Status>),
    Write(Result<WriteResults, Status>),
    Create(Result<MakeResults, Status>),
    MakeDirectory(Result<MakeResults, Status>),
    MakeSymbolicLink(Result<MakeResults, Status>),
    MakeDevice(Result<MakeResults, Status>),
    /// The directory.
    Remove(Result<Change, Status>),
    /// The directory.
    RemoveDirectory(Result<Change, Status>),
    Rename(Result<RenameResults, Status>),
    MakeLink(Result<LinkResults, Status>),
    ReadDirectory(Result<ReadDirectoryResults, Status>),
    ReadDirectoryPlus(Result<ReadDirectoryPlusResults, Status>),
    FilesystemStatus(Result<FilesystemStatusResults, Status>),
    FilesystemInfo(Result<FilesystemInfoResults, Status>),
    PathConfiguration(Result<PathConfigurationResults, Status>),
    Commit(Result<CommitResults, Status>),
    /// Of CENSUS of the admin program, which never fails: the volumes in order.
    Census(Vec<VolumeCount>),
    /// Of GROW of the admin program: the volume's blocks.
    Grow(Result<u64, Status>),
    /// Of STOP of the admin program, which never fails.
    Stop,
    /// Of MNT of MOUNT: the root's handle.
    Mount(Result<MountResults, Status>),
    /// Of DUMP of MOUNT, which lists no mounts.
    ListMounts,
    /// Of EXPORT of MOUNT.
    ListExports(Exports),
}

// By hand, so that crates above have no proof of the drop of each of its parts.
impl Drop for Answer {
    fn drop(self) {
        match self {
            Answer::Null => {}
            Answer::GetAttributes(_) => {}
            Answer::SetAttributes(_) => {}
            Answer::Lookup(_) => {}
            Answer::CheckAccess(_) => {}
            Answer::ReadLink(_) => {}
            Answer::Read(_) => {}
            Answer::Write(_) => {}
            Answer::Create(_) => {}
            Answer::MakeDirectory(_) => {}
            Answer::MakeSymbolicLink(_) => {}
            Answer::MakeDevice(_) => {}
            Answer::Remove(_) => {}
            Answer::RemoveDirectory(_) => {}
            Answer::Rename(_) => {}
            Answer::MakeLink(_) => {}
            Answer::ReadDirectory(_) => {}
            Answer::ReadDirectoryPlus(_) => {}
            Answer::FilesystemStatus(_) => {}
            Answer::FilesystemInfo(_) => {}
            Answer::PathConfiguration(_) => {}
            Answer::Commit(_) => {}
            Answer::Census(_) => {}
            Answer::Grow(_) => {}
            Answer::Stop => {}
            Answer::Mount(_) => {}
            Answer::ListMounts => {}
            Answer::ListExports(_) => {}
        }
    }
}

impl Answer {
    ghost use Rattle.nfs_values.specs.Answer.{procedure_of};
    ghost use Rattle.std.specs.Prelude.{◌≡◌};

    /// The procedure whose results these are; NULL of NFS for a reply that has none.
    pub fn procedure(&self) -> Procedure
        ensures { result ≡ procedure_of self.now }
    {
        match self {
            Answer::Null => Procedure::Null,
            Answer::GetAttributes(_) => Procedure::GetAttributes,
            Answer::SetAttributes(_) => Procedure::SetAttributes,
            Answer::Lookup(_) => Procedure::Lookup,
            Answer::CheckAccess(_) => Procedure::CheckAccess,
            Answer::ReadLink(_) => Procedure::ReadLink,
            Answer::Read(_) => Procedure::Read,
            Answer::Write(_) => Procedure::Write,
            Answer::Create(_) => Procedure::Create,
            Answer::MakeDirectory(_) => Procedure::MakeDirectory,
            Answer::MakeSymbolicLink(_) => Procedure::MakeSymbolicLink,
            Answer::MakeDevice(_) => Procedure::MakeDevice,
            Answer::Remove(_) => Procedure::Remove,
            Answer::RemoveDirectory(_) => Procedure::RemoveDirectory,
            Answer::Rename(_) => Procedure::Rename,
            Answer::MakeLink(_) => Procedure::MakeLink,
            Answer::ReadDirectory(_) => Procedure::ReadDirectory,
            Answer::ReadDirectoryPlus(_) => Procedure::ReadDirectoryPlus,
            Answer::FilesystemStatus(_) => Procedure::FilesystemStatus,
            Answer::FilesystemInfo(_) => Procedure::FilesystemInfo,
            Answer::PathConfiguration(_) => Procedure::PathConfiguration,
            Answer::Commit(_) => Procedure::Commit,
            Answer::Census(_) => Procedure::Census,
            Answer::Grow(_) => Procedure::Grow,
            Answer::Stop => Procedure::Stop,
            Answer::Mount(_) => Procedure::Mount,
            Answer::ListMounts => Procedure::ListMounts,
            Answer::ListExports(_) => Procedure::ListExports,
        }
    }

    /// Whether they have memory of their own.
    pub fn has_memory(&self) -> bool {
        match self {
            Answer::ReadLink(_) => true,
            Answer::Read(_) => true,
            Answer::ReadDirectory(_) => true,
            Answer::ReadDirectoryPlus(_) => true,
            Answer::Census(_) => true,
            Answer::Null => false,
            Answer::GetAttributes(_) => false,
            Answer::SetAttributes(_) => false,
            Answer::Lookup(_) => false,
            Answer::CheckAccess(_) => false,
            Answer::Write(_) => false,
            Answer::Create(_) => false,
            Answer::MakeDirectory(_) => false,
            Answer::MakeSymbolicLink(_) => false,
            Answer::MakeDevice(_) => false,
            Answer::Remove(_) => false,
            Answer::RemoveDirectory(_) => false,
            Answer::Rename(_) => false,
            Answer::MakeLink(_) => false,
            Answer::FilesystemStatus(_) => false,
            Answer::FilesystemInfo(_) => false,
            Answer::PathConfiguration(_) => false,
            Answer::Commit(_) => false,
            Answer::Grow(_) => false,
            Answer::Stop => false,
            Answer::Mount(_) => false,
            Answer::ListMounts => false,
            Answer::ListExports(_) => false,
        }
    }
}
