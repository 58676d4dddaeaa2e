//! Nodes that lose their names.

ghost use Rattle.std.specs.Prelude.{◌≡◌, ◌≤◌, ◌<◌, ◌^◌, ℕ, Some, None, is_some};
ghost use Rattle.std.specs.FinMap.{get};
ghost use Rattle.std.specs.Option.{option_map};
ghost use Rattle.parcels.specs.Filled.{logical_alike};
ghost use Rattle.nfs_values.specs.Moment.{moment_of};
ghost use Rattle.nfs_model.specs.volume.Directories.{removed};
ghost use Rattle.nfs_model.specs.volume.Inodes.{inode_set, inode_dropped};
ghost use Rattle.nfs_model.specs.volume.Maps.{changed_at};
ghost use Rattle.inodes.specs.Inode.{attributes_value, inode_value, kind_value};
ghost use Rattle.filer_state.specs.state.Changes.{attributes_now};
ghost use Rattle.filer_state.specs.state.Names.{parent_in, size_in};
ghost use Rattle.filer_state.specs.state.Sets.{logical_before, logical_after};
ghost use Rattle.filer_state.specs.changes.NameAnswers.{entries_of};
ghost use Rattle.filer_state.specs.changes.NodesDropped.{
  directories_left,
  directory_left,
  node_dropped,
  texts_left,
  without_subdirectories,
};
ghost use Rattle.filer_state.specs.changes.NodesMade.{directories_in};
ghost use Rattle.filer_state.specs.changes.Dropping.{
  child_emptied,
  dropping_of,
  file_gone,
  name_gone,
  one_gone,
};
ghost use Rattle.service_names.specs.Changing.{
  inode_left,
  MayBeSet,
  with_directories,
  with_inodes,
  with_texts,
};
ghost use Rattle.service_names.specs.Naming.{node_value, naming_of};

use crate::attributes::attributes_now;
use crate::cards::drop_cards;
use crate::making::directories_in;
use crate::node::Node;
use crate::sizing::empty_file;
use crate::touches::take_touches;
use filer_state::{Files, LogicalParcel};
use inodes::{Inode, InodeKind, StoredAttributes};
use nfs_values::{Fileid, Moment};
use parcels::LogicalHeld;

/// Takes a name of a node that isn't a directory out of its directory, and tells the directory's
/// inode: with its last name the node is dropped, and a file's blocks are dead then. It needs no
/// memory.
pub(crate) fn drop_name(
    held: &mut LogicalHeld<Files>,
    directory: Node,
    name: &[u8],
    child: Node,
    moment: Moment,
) -> Inode
    requires child { MayBeSet child.fileid.0 (logical_before held.old) }
    requires file { parent_in (kind_value child.inode.kind) ≡ None }
    requires entered { get held.old.own.directories directory.fileid.0
        ≡ Some (entries_of held.old.own directory.fileid.0) }
    ensures inode { (v : ℕ) → inode_value result ≡ directory_left
        (dropping_of (naming_of v directory name.now (moment_of moment) (logical_before held.old))
        (node_value child)) }
    ensures set { (v : ℕ) → logical_after held.old held.new ≡ (name_gone
        (naming_of v directory name.now (moment_of moment) (logical_before held.old))
        (node_value child)).set }
    ensures alike { logical_alike held.old held.new }
{
    if child.inode.names > 1 {
        return drop_one_name(held, directory, name, child, moment);
    }
    if is_file(child.inode.kind) {
        return drop_file(held, directory, name, child, moment);
    }
    drop_node(held, directory, name, child, moment)
}

/// Whether a node of a kind is a file.
fn is_file(kind: InodeKind) -> bool
    ensures { result ≡ is_some (size_in (kind_value kind)) }
{
    match kind {
        InodeKind::RegularFile { .. } => true,
        InodeKind::Directory { .. } => false,
        InodeKind::Special { .. } => false,
    }
}

/// Takes a name of a node that has others out of its directory, and tells the directory's inode:
/// the node settles, and has one name less. It takes no memory.
fn drop_one_name(
    held: &mut LogicalHeld<Files>,
    directory: Node,
    name: &[u8],
    child: Node,
    moment: Moment,
) -> Inode
    requires few { held.old.own.stripes ≤ 16 }
    requires used { held.old.own.inodes.used < 2 ^ 62 }
    requires more { 1 < child.inode.names }
    requires entered { get held.old.own.directories directory.fileid.0
        ≡ Some (entries_of held.old.own directory.fileid.0) }
    ensures inode { (v : ℕ) → inode_value result ≡ directory_left
        (dropping_of (naming_of v directory name.now (moment_of moment) (logical_before held.old))
        (node_value child)) }
    ensures set { (v : ℕ) → logical_after held.old held.new ≡ (one_gone
        (naming_of v directory name.now (moment_of moment) (logical_before held.old))
        (node_value child)).set }
    ensures alike { logical_alike held.old held.new }
{
    let left = directory_left(directory.inode, child.inode.kind, moment);
    let touch = take_touches(held, child.fileid);
    let counted = counted_inode(child.inode, touch, child.inode.names - 1, moment);
    let own = held.own.get_mut();
    own.inodes.set(directory.fileid, left);
    own.inodes.set(child.fileid, counted);
    own.directories.remove_entry(directory.fileid, name);
    left
}

/// The inode of a node that gets or loses a name at a moment and has this many then, where this was
/// its file's latest touch: it settles, and its ctime is the moment's.
pub fn counted_inode(inode: Inode, touch: Option<Moment>, names: u32, moment: Moment) -> Inode
    ensures attributes { attributes_value result.attributes
        ≡ record (attributes_now (option_map moment_of touch) (attributes_value inode.attributes)
        (kind_value inode.kind)) { ctime = moment_of moment } }
    ensures names { result.names ≡ names }
    ensures kind { result.kind ≡ inode.kind }
{
    Inode {
        attributes: StoredAttributes {
            ctime: moment,
            ..attributes_now(inode, touch)
        },
        names,
        kind: inode.kind,
    }
}

/// Drops a file under a name of a directory, whose blocks are dead then, and tells the directory's
/// inode. It needs no memory.
pub(crate) fn drop_file(
    held: &mut LogicalHeld<Files>,
    directory: Node,
    name: &[u8],
    child: Node,
    moment: Moment,
) -> Inode
    requires child { MayBeSet child.fileid.0 (logical_before held.old) }
    requires file { parent_in (kind_value child.inode.kind) ≡ None }
    requires entered { get held.old.own.directories directory.fileid.0
        ≡ Some (entries_of held.old.own directory.fileid.0) }
    ensures inode { (v : ℕ) → inode_value result ≡ directory_left
        (dropping_of (naming_of v directory name.now (moment_of moment) (logical_before held.old))
        (child_emptied (node_value child) (logical_before held.old))) }
    ensures set { (v : ℕ) → logical_after held.old held.new ≡ (file_gone
        (naming_of v directory name.now (moment_of moment) (logical_before held.old))
        (node_value child)).set }
    ensures alike { logical_alike held.old held.new }
{
    let inode = empty_file(held, child.fileid, child.inode);
    let emptied = Node {
        fileid: child.fileid,
        inode,
    };
    drop_node(held, directory, name, emptied, moment)
}

/// Drops a node without bytes and entries with its name in a directory, and tells the directory's
/// inode. It takes no memory.
pub(crate) fn drop_node(
    held: &mut LogicalHeld<Files>,
    directory: Node,
    name: &[u8],
    child: Node,
    moment: Moment,
) -> Inode
    requires few { held.old.own.stripes ≤ 16 }
    requires used { held.old.own.inodes.used < 2 ^ 63 }
    requires entered { get (directories_left (kind_value child.inode.kind) child.fileid.0
        held.old.own.directories) directory.fileid.0
        ≡ Some (entries_of held.old.own directory.fileid.0) }
    ensures inode { (v : ℕ) → inode_value result ≡ directory_left (dropping_of
        (naming_of v directory name.now (moment_of moment) (logical_before held.old))
        (node_value child)) }
    ensures set { (v : ℕ) → logical_after held.old held.new ≡ node_dropped (dropping_of
        (naming_of v directory name.now (moment_of moment) (logical_before held.old))
        (node_value child)) (logical_before held.old) }
    ensures alike { logical_alike held.old held.new }
{
    let left = directory_left(directory.inode, child.inode.kind, moment);
    drop_cards(held, child.fileid);
    drop_inode(&mut held.own, child.fileid, directory.fileid, left);
    drop_directory(&mut held.own, child.inode.kind, child.fileid);
    drop_text(&mut held.own, child.inode.kind, child.fileid);
    drop_entry(&mut held.own, directory.fileid, name);
    left
}

/// The inode of a directory that a node of a kind leaves at a moment: both times are the moment's,
/// and a directory is one subdirectory less.
pub fn directory_left(inode: Inode, kind: InodeKind, moment: Moment) -> Inode
    ensures { inode_value result
        ≡ inode_left (inode_value inode) (kind_value kind) (moment_of moment) }
{
    Inode {
        attributes: StoredAttributes {
            mtime: moment,
            ctime: moment,
            ..inode.attributes
        },
        kind: kind_left(inode.kind, kind),
        ..inode
    }
}

/// What a directory is that a node of a kind leaves.
fn kind_left(directory: InodeKind, kind: InodeKind) -> InodeKind
    ensures { kind_value result
        ≡ without_subdirectories (directories_in (kind_value kind)) (kind_value directory) }
{
    let InodeKind::Directory {
        parent,
        subdirectories,
    } = directory
    else {
        return directory;
    };
    let fewer = directories_in(kind);
    InodeKind::Directory {
        parent,
        subdirectories: subdirectories.saturating_sub(fewer),
    }
}

/// Drops the inode of a node, and sets that of the directory in which it was. It takes no memory.
pub fn drop_inode(own: &mut LogicalParcel, fileid: Fileid, directory: Fileid, left: Inode)
    requires { own.old.inodes.used < 2 ^ 63 }
    ensures { own.new ≡ with_inodes (inode_set directory.0 (inode_value left)
        (inode_dropped fileid.0 own.old.inodes)) own.old }
{
    let inodes = &mut own.get_mut().inodes;
    inodes.drop_node(fileid);
    inodes.set(directory, left);
}

/// Drops the entries of a node of a kind, if it is a directory. It takes no memory.
pub fn drop_directory(own: &mut LogicalParcel, kind: InodeKind, fileid: Fileid)
    ensures { own.new ≡ with_directories
        (directories_left (kind_value kind) fileid.0 own.old.directories) own.old }
{
    match kind {
        InodeKind::RegularFile { .. } => {}
        InodeKind::Special { .. } => {}
        InodeKind::Directory { .. } => own.get_mut().directories.remove(fileid),
    }
}

/// Drops the text of a node of a kind, if it is a symbolic link. It takes no memory.
pub fn drop_text(own: &mut LogicalParcel, kind: InodeKind, fileid: Fileid)
    ensures { own.new ≡ with_texts
        (texts_left (kind_value kind) fileid.0 own.old.texts) own.old }
{
    match kind {
        InodeKind::RegularFile { .. } => {}
        InodeKind::Directory { .. } => {}
        InodeKind::Special { size, .. } => {
            if size != 0 {
                own.get_mut().texts.remove(fileid);
            }
        }
    }
}

/// Drops the entry of a name of a directory.
fn drop_entry(own: &mut LogicalParcel, directory: Fileid, name: &[u8])
    ensures { own.new ≡ with_directories
        (changed_at (removed name.now) directory.0 own.old.directories) own.old }
{
    own.get_mut().directories.remove_entry(directory, name);
}
