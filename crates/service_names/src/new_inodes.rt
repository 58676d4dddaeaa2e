//! Inodes of new nodes.

ghost use Rattle.std.specs.Prelude.{◌≡◌, ◌<◌};
ghost use Rattle.std.specs.Option.{option_map};
ghost use Rattle.nfs_model.specs.Serial.Create.{asked_attributes, kept_verifier, new_attributes};
ghost use Rattle.nfs_values.specs.Attributes.{kind_of};
ghost use Rattle.nfs_values.specs.Moment.{moment_of};
ghost use Rattle.nfs_values.specs.Set.{mode_of, set_of};
ghost use Rattle.nfs_values.specs.Special.{special_of};
ghost use Rattle.inodes.specs.Inode.{attributes_value, inode_value};
ghost use Rattle.filer_state.specs.changes.Making.{file_inode, made_directory_inode, special_inode};
ghost use Rattle.service_names.specs.Making.{maker_in_parent};

use crate::attributes::{given_mode, time_after};
use crate::parent::Parent;
use inodes::{Inode, InodeKind, StoredAttributes};
use nfs_values::{Caller, CreateMode, FileKind, SetAttributes, SpecialType, Verifier};
use rights::Maker;

/// The mode of a new file where none is given (our profile).
const FILE_MODE: u16 = 0o644;

/// The mode of a new directory where none is given (our profile).
const DIRECTORY_MODE: u16 = 0o755;

/// The inode of a file that a caller creates in a directory: its size is a hole.
pub(crate) fn file_inode(mode: &CreateMode, caller: &Caller, parent: &Parent) -> Inode
    ensures { inode_value result ≡ file_inode (mode_of mode.now)
        (maker_in_parent caller.now parent.now) (moment_of parent.now.moment) }
{
    let set = asked_attributes(mode);
    Inode {
        attributes: new_attributes(&set, FileKind::Regular, FILE_MODE, caller, parent),
        names: 1,
        kind: InodeKind::RegularFile {
            size: set.size.unwrap_or(0),
            filled: 0,
            verifier: kept_verifier(mode),
        },
    }
}

/// The inode of a directory that a caller makes in another.
pub(crate) fn made_directory_inode(set: &SetAttributes, caller: &Caller, parent: &Parent) -> Inode
    ensures { inode_value result ≡ made_directory_inode parent.now.fileid.0 (set_of set.now)
        (maker_in_parent caller.now parent.now) (moment_of parent.now.moment) }
{
    Inode {
        attributes: new_attributes(set, FileKind::Directory, DIRECTORY_MODE, caller, parent),
        names: 1,
        kind: InodeKind::Directory {
            parent: parent.fileid,
            subdirectories: 0,
        },
    }
}

/// The inode of a special node that a caller makes in a directory, of this mode where none is
/// given, with a text of this length.
pub(crate) fn special_inode(
    special: SpecialType,
    mode: u16,
    set: &SetAttributes,
    size: u32,
    caller: &Caller,
    parent: &Parent,
) -> Inode
    requires { mode < 4096 }
    ensures { inode_value result ≡ special_inode (special_of special) mode (set_of set.now) size
        (maker_in_parent caller.now parent.now) (moment_of parent.now.moment) }
{
    Inode {
        attributes: new_attributes(set, FileKind::Special(special), mode, caller, parent),
        names: 1,
        kind: InodeKind::Special { special, size },
    }
}

/// The attributes that a file is created with; an exclusive one takes the defaults.
pub(crate) fn asked_attributes(mode: &CreateMode) -> SetAttributes
    ensures { set_of result ≡ asked_attributes (mode_of mode.now) }
{
    match mode {
        CreateMode::Unchecked(set) => *set,
        CreateMode::Guarded(set) => *set,
        CreateMode::Exclusive(_) => SetAttributes::NOTHING,
    }
}

/// The verifier that a new file keeps (createverf3, RFC 1813 section 3.3.8).
fn kept_verifier(mode: &CreateMode) -> Option<Verifier>
    ensures { option_map (λ v. v.0) result ≡ kept_verifier (mode_of mode.now) }
{
    match mode {
        CreateMode::Unchecked(_) => None,
        CreateMode::Guarded(_) => None,
        CreateMode::Exclusive(verifier) => Some(*verifier),
    }
}

/// The attributes of a new node: those given, as far as a checked caller may give them, else a
/// mode, the caller, and the moment.
fn new_attributes(
    set: &SetAttributes,
    kind: FileKind,
    mode: u16,
    caller: &Caller,
    parent: &Parent,
) -> StoredAttributes
    requires { mode < 4096 }
    ensures { attributes_value result ≡ new_attributes (set_of set.now) (kind_of kind) mode
        (maker_in_parent caller.now parent.now) (moment_of parent.now.moment) }
{
    let maker = Maker {
        caller,
        directory: parent.inode.attributes.ownership(),
    };
    let moment = parent.moment;
    let gid = maker.gid(set);
    StoredAttributes {
        mode: maker.mode(kind, gid, given_mode(set.mode, mode)),
        uid: maker.uid(set),
        gid,
        atime: time_after(set.atime, moment, moment),
        mtime: time_after(set.mtime, moment, moment),
        ctime: moment,
    }
}
