//! Inodes.

ghost use Rattle.std.specs.Prelude.{◌≡◌};

use nfs_values::{Fileid, MOST_LINKS, Moment, Ownership, SpecialType, Verifier};

/// What is stored of a node's attributes (fattr3, RFC 1813 section 2.6).
#[derive(Clone, Copy, Debug, PartialEq, Eq)]
pub struct StoredAttributes {
    /// Twelve bits.
    pub mode: u16,
    pub uid: u32,
    pub gid: u32,
    pub atime: Moment,
    pub mtime: Moment,
    pub ctime: Moment,
}

/// What an inode is of.
#[derive(Clone, Copy, Debug, PartialEq, Eq)]
pub enum InodeKind {
    RegularFile {
        /// In bytes.
        size: u64,
        /// The blocks of 4,096 bytes that are there.
        filled: u32,
        /// That of its exclusive creation (createverf3, RFC 1813 section 3.3.8).
        verifier: Option<Verifier>,
    },
    Directory {
        parent: Fileid,
        /// How many of its entries are directories.
        subdirectories: u32,
    },
    /// A symbolic link, a FIFO, a socket or a device.
    Special {
        special: SpecialType,
        /// The length of a symbolic link's text in bytes, else 0.
        size: u32,
    },
}

/// A node's attributes, and what a reply shows beside them (RFC 1813 section 2.6).
#[derive(Clone, Copy, Debug, PartialEq, Eq)]
pub struct Inode {
    pub attributes: StoredAttributes,
    /// How many entries of directories name it; the root has none.
    pub names: u32,
    pub kind: InodeKind,
}

impl StoredAttributes {
    ghost use Rattle.std.specs.Option.{option_map};
    ghost use Rattle.nfs_model.specs.Shown.{effective_attributes};
    ghost use Rattle.nfs_model.specs.Serial.Rights.{ownership_of as ownership_of_attributes};
    ghost use Rattle.nfs_values.specs.Moment.{moment_of};
    ghost use Rattle.nfs_values.specs.Ownership.{ownership_of};
    ghost use Rattle.inodes.specs.Inode.{attributes_value};

    /// The mode, the owner and the group.
    pub fn ownership(&self) -> Ownership
        ensures { ownership_of result ≡ ownership_of_attributes (attributes_value self.now) }
    {
        Ownership {
            mode: self.mode,
            uid: self.uid,
            gid: self.gid,
        }
    }

    /// The attributes with a touch, if there is one, as mtime and ctime.
    pub fn with_touch(self, touch: Option<Moment>) -> StoredAttributes
        ensures { attributes_value result ≡
            effective_attributes (option_map moment_of touch) (attributes_value self) }
    {
        match touch {
            None => self,
            Some(moment) => StoredAttributes {
                mtime: moment,
                ctime: moment,
                ..self
            },
        }
    }
}

impl InodeKind {
    ghost use Rattle.nfs_model.specs.volume.Inodes.{filled_blocks};
    ghost use Rattle.inodes.specs.Inode.{kind_value};

    /// The filled blocks of a file; all else has none.
    pub fn filled(self) -> u32
        ensures { result ≡ filled_blocks (kind_value self) }
    {
        match self {
            InodeKind::RegularFile { filled, .. } => filled,
            InodeKind::Directory { .. } => 0,
            InodeKind::Special { .. } => 0,
        }
    }
}

impl Inode {
    ghost use Rattle.std.specs.Option.{option_map};
    ghost use Rattle.nfs_values.specs.Moment.{moment_of};
    ghost use Rattle.nfs_values.specs.Ownership.{ownership_of};
    ghost use Rattle.nfs_model.specs.volume.Inodes.{attributes_held, root_inode, settled_inode};
    ghost use Rattle.inodes.specs.Inode.{attributes_value, inode_value};
    ghost use Rattle.inodes.specs.Links.{inode_changed, inode_with_link, inode_without_link};

    /// The root directory as a volume begins at a moment: who owns it is given, that moment is all
    /// its times, and it is its own parent (our profile).
    pub fn root(owner: Ownership, begun: Moment) -> Inode
        ensures { inode_value result ≡ root_inode (ownership_of owner) (moment_of begun) }
    {
        Inode {
            attributes: StoredAttributes {
                mode: owner.mode,
                uid: owner.uid,
                gid: owner.gid,
                atime: begun,
                mtime: begun,
                ctime: begun,
            },
            names: 0,
            kind: InodeKind::Directory {
                parent: Fileid::ROOT,
                subdirectories: 0,
            },
        }
    }

    /// The attributes as they hold, where the file's latest write since its times were last set
    /// was at a moment, the touch.
    pub fn attributes_held(self, touch: Option<Moment>) -> StoredAttributes
        ensures { attributes_value result ≡
            attributes_held (option_map moment_of touch) (inode_value self) }
    {
        self.attributes.with_touch(touch)
    }

    /// The inode with a touch, if there is one, as its stored mtime and ctime.
    pub fn settled(self, touch: Option<Moment>) -> Inode
        ensures { inode_value result ≡
            settled_inode (option_map moment_of touch) (inode_value self) }
    {
        Inode {
            attributes: self.attributes.with_touch(touch),
            ..self
        }
    }

    /// The inode with a touch, if there is one, as its stored mtime, and a moment as its ctime.
    pub fn changed(self, touch: Option<Moment>, moment: Moment) -> Inode
        ensures { inode_value result ≡
            inode_changed (option_map moment_of touch) (moment_of moment) (inode_value self) }
    {
        Inode {
            attributes: StoredAttributes {
                ctime: moment,
                ..self.attributes.with_touch(touch)
            },
            ..self
        }
    }

    /// The inode with one more name at a moment, as `changed`, or `None` where it has as many as it
    /// may.
    pub fn with_link(self, touch: Option<Moment>, moment: Moment) -> Option<Inode>
        ensures { option_map inode_value result ≡
            inode_with_link (option_map moment_of touch) (moment_of moment) (inode_value self) }
    {
        if self.names >= MOST_LINKS {
            return None;
        }
        Some(Inode {
            names: self.names + 1,
            ..self.changed(touch, moment)
        })
    }

    /// The inode without one of its names at a moment, as `changed`, or `None` where it has no
    /// other.
    pub fn without_link(self, touch: Option<Moment>, moment: Moment) -> Option<Inode>
        ensures { option_map inode_value result ≡
            inode_without_link (option_map moment_of touch) (moment_of moment) (inode_value self) }
    {
        if self.names <= 1 {
            return None;
        }
        Some(Inode {
            names: self.names - 1,
            ..self.changed(touch, moment)
        })
    }
}
