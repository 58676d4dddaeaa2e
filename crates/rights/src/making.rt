//! Attributes of what a caller makes (CREATE, MKDIR, SYMLINK and MKNOD, RFC 1813 sections 3.3.8 to
//! 3.3.11).

ghost use Rattle.std.specs.Prelude.{◌≡◌, ◌<◌, ◌≤◌};
ghost use Rattle.nfs_model.specs.Serial.Create.{
  checked_gid,
  checked_mode,
  made_gid,
  made_mode,
  made_uid,
  over_taken,
};
ghost use Rattle.nfs_model.specs.Serial.Rights.{group_made, owned};
ghost use Rattle.nfs_model.specs.Types.{DirectoryKind};
ghost use Rattle.nfs_values.specs.Attributes.{kind_of};
ghost use Rattle.nfs_values.specs.Caller.{caller_of};
ghost use Rattle.nfs_values.specs.Credential.{credential_of};
ghost use Rattle.nfs_values.specs.Ownership.{ownership_of};
ghost use Rattle.nfs_values.specs.Set.{set_of};
ghost use Rattle.rights.specs.Making.{maker_of};

use crate::bits::{SET_GID, with_bit};
use crate::mode::is_in_group;
use crate::protection::Protection;
use crate::setting::mode_of_group;
use nfs_values::{Caller, Credential, FileKind, Ownership, SetAttributes};

/// What UNCHECKED sets of a file that is there: where callers are checked its size alone, since
/// the others are of a new file (RFC 1813 section 3.3.8).
pub fn over_taken(caller: &Caller, set: &SetAttributes) -> SetAttributes
    ensures { set_of result ≡ over_taken (caller_of caller.now) (set_of set.now) }
{
    if !caller.is_checked {
        return *set;
    }
    SetAttributes {
        size: set.size,
        ..SetAttributes::NOTHING
    }
}

/// Who makes a node, and who owns the directory in which it comes.
#[derive(Clone, Copy)]
pub struct Maker<'a> {
    pub caller: &'a Caller,
    pub directory: Ownership,
}

impl Maker<'_> {
    /// The group of what is made, if none is given: the caller's, or the directory's.
    fn group_made(&self) -> u32
        ensures { result ≡ group_made (credential_of self.now.caller.now.credential)
            (owned DirectoryKind (ownership_of self.now.directory)) }
    {
        if Protection::of_directory(self.directory).gives_group() {
            return self.directory.gid;
        }
        self.caller.credential.gid
    }

    /// The group of what a checked caller makes: one of its own, or the one that is made anyway.
    fn checked_gid(&self, set: &SetAttributes) -> u32
        ensures { result ≡ checked_gid set.now.gid
            (credential_of self.now.caller.now.credential)
            (owned DirectoryKind (ownership_of self.now.directory)) }
    {
        match set.gid {
            Some(gid) => self.group_given(gid),
            None => self.group_made(),
        }
    }

    /// A group that a checked caller gives, if it may, or the one that is made anyway.
    fn group_given(&self, gid: u32) -> u32
        ensures { result ≡ checked_gid (Some gid)
            (credential_of self.now.caller.now.credential)
            (owned DirectoryKind (ownership_of self.now.directory)) }
    {
        let who = &self.caller.credential;
        if who.uid == 0 || is_in_group(who, gid) {
            return gid;
        }
        self.group_made()
    }

    /// The owner of what is made: a checked caller other than uid 0, whatever it gives.
    pub fn uid(&self, set: &SetAttributes) -> u32
        ensures { result ≡ made_uid (set_of set.now) (maker_of self.now) }
    {
        let uid = self.caller.credential.uid;
        if self.caller.is_checked && uid != 0 {
            return uid;
        }
        set.uid.unwrap_or(uid)
    }

    /// The group of what is made.
    pub fn gid(&self, set: &SetAttributes) -> u32
        ensures { result ≡ made_gid (set_of set.now) (maker_of self.now) }
    {
        if self.caller.is_checked {
            return self.checked_gid(set);
        }
        set.gid.unwrap_or(self.caller.credential.gid)
    }

    /// The mode of a directory that a checked caller makes: 02000 comes from the one above it, or
    /// from those of the group.
    fn mode_of_directory(&self, gid: u32, mode: u32) -> u32
        requires { mode < 4096 }
        ensures given { result ≡ checked_mode (maker_of self.now) DirectoryKind gid mode }
        ensures fits { result < 65536 }
    {
        if Protection::of_directory(self.directory).gives_group() {
            return with_bit(mode, SET_GID);
        }
        mode_of_group(&self.caller.credential, gid, mode)
    }

    /// The mode of what is made in a group.
    pub fn mode(&self, kind: FileKind, gid: u32, mode: u16) -> u16
        requires { mode < 4096 }
        ensures { result ≡ made_mode (maker_of self.now) (kind_of kind) gid mode }
    {
        if !self.caller.is_checked {
            return mode;
        }
        let mode = u32::from(mode);
        match kind {
            FileKind::Regular => mode_of_group(&self.caller.credential, gid, mode) as u16,
            FileKind::Directory => self.mode_of_directory(gid, mode) as u16,
            FileKind::Special(_) => mode_of_group(&self.caller.credential, gid, mode) as u16,
        }
    }
}
