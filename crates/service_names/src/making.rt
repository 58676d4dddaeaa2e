//! Nodes that are made under a name.

ghost use Rattle.std.specs.Prelude.{
  ◌≡◌,
  ◌==◌,
  ◌<◌,
  ◌≤◌,
  ◌+◌,
  ◌^◌,
  true,
  false,
  is_some,
  None,
  IfOk,
  IfSome,
  OnOk,
  OnErr,
};
ghost use Rattle.std.specs.FinMap.{get, len};
ghost use Rattle.nfs_values.specs.Answer.{node_made as made_told};
ghost use Rattle.nfs_values.specs.Moment.{moment_of};
ghost use Rattle.nfs_values.specs.Ownership.{ownership_of};
ghost use Rattle.parcels.specs.Filled.{logical_alike};
ghost use Rattle.inodes.specs.Inode.{inode_value, kind_value};
ghost use Rattle.nfs_model.specs.volume.Directories.{added, found};
ghost use Rattle.nfs_model.specs.volume.Inodes.{filled_blocks, inode_created, inode_of, inode_set};
ghost use Rattle.nfs_model.specs.volume.Inodes.{inodes_of_a_volume};
ghost use Rattle.nfs_model.specs.volume.Maps.{changed_at};
ghost use Rattle.filer_state.specs.state.Names.{subdirectories_in};
ghost use Rattle.filer_state.specs.state.Sets.{logical_before, logical_after};
ghost use Rattle.filer_state.specs.changes.NodesMade.{
  directories_made,
  directories_in,
  node_made,
  texts_made,
  with_subdirectories,
};
ghost use Rattle.filer_state.specs.changes.Making.{held_made, making_of};
ghost use Rattle.service_names.specs.Cards.{InFirst, DiffersByCard, HasCard, IsDropped};
ghost use Rattle.service_names.specs.Changing.{text_given, with_directories};
ghost use Rattle.service_names.specs.Changing.{with_inodes, with_texts};
ghost use Rattle.service_names.specs.Making.{
  MayMake,
  naming_in_parent,
  inode_dated,
  without_parts,
  node_unmade,
};
ghost use Rattle.service_names.specs.Shown.{HasFewLinks};

use crate::cards::{drop_cards, put_cards};
use crate::child::directory_change;
use crate::node::Node;
use crate::parent::Parent;
use crate::showing::shown;
use directories::Directory;
use filer_state::Files;
use inodes::{Created, Inode, InodeKind, StoredAttributes};
use nfs_values::answer::MakeResults;
use nfs_values::{FileHandle, Fileid, Name, Named, Ownership};
use parcels::LogicalHeld;
use std::alloc::{AllocError, Global};

/// Makes a node under a name of a directory, with a text if it isn't empty, and tells it. Where
/// memory runs out nothing has changed.
pub(crate) fn make_told(
    alloc: Global,
    held: &mut LogicalHeld<Files>,
    parent: Parent,
    name: &[u8],
    made: Inode,
    text: &[u8],
) -> Result<MakeResults, AllocError>
    requires may { MayMake (naming_in_parent parent name.now (logical_before held.old)) }
    requires empty { filled_blocks (kind_value made.kind) ≡ 0 }
    requires links { HasFewLinks (kind_value made.kind) }
    ensures told { IfOk result (λ told. made_told told ≡ (held_made
        (naming_in_parent parent name.now (logical_before held.old)) (inode_value made)
        (text_given text.now)).answer) }
    ensures set { OnOk result (logical_after held.old held.new ≡ (held_made
        (naming_in_parent parent name.now (logical_before held.old)) (inode_value made)
        (text_given text.now)).set) }
    ensures alike { logical_alike held.old held.new }
    ensures err { OnErr result (held.new ≡ held.old) }
{
    let fileid = make_node(alloc, held, parent, name, made, text)?;
    let volume = parent.volume;
    let directory = Node {
        fileid: parent.fileid,
        inode: parent.inode,
    };
    Ok(MakeResults {
        handle: FileHandle::naming(Named { volume, fileid }),
        object: shown(volume, fileid, made, None),
        directory: directory_change(volume, directory, dated(parent, made.kind)),
    })
}

/// Makes a node under a name of a directory, with a text if it isn't empty, and tells its fileid.
/// Where memory runs out nothing has changed.
fn make_node(
    alloc: Global,
    held: &mut LogicalHeld<Files>,
    parent: Parent,
    name: &[u8],
    made: Inode,
    text: &[u8],
) -> Result<Fileid, AllocError>
    requires may { MayMake (naming_in_parent parent name.now (logical_before held.old)) }
    requires empty { filled_blocks (kind_value made.kind) ≡ 0 }
    ensures fileid { IfOk result (λ fileid. fileid.0 ≡ held.old.own.inodes.next) }
    ensures ok { OnOk result (logical_after held.old held.new ≡ node_made
        (making_of (naming_in_parent parent name.now (logical_before held.old)) (inode_value made)
        (text_given text.now))
        (logical_before held.old)) }
    ensures alike { logical_alike held.old held.new }
    ensures err { OnErr result (held.new ≡ held.old) }
{
    let name = Name::copied(alloc, name)?;
    let text = text_kept(alloc, text)?;
    let created = create_inode(held, made)?;
    let fileid = created.fileid();
    let owner = made.attributes.ownership();
    match tie(
        alloc,
        held,
        parent.fileid,
        name,
        fileid,
        owner,
        made.kind,
        text,
    ) {
        Ok(()) => {
            set_directory(held, parent, made.kind);
            Ok(created.keep())
        }
        Err(error) => {
            unmake(held, created);
            Err(error)
        }
    }
}

/// Makes an inode under the next fileid.
fn create_inode(held: &mut LogicalHeld<Files>, made: Inode) -> Result<Created, AllocError>
    requires fileids { held.old.own.inodes.next < 2 ^ 63 }
    requires room { len held.old.own.inodes.inodes < inodes_of_a_volume }
    ensures fileid { IfOk result (λ created. created ≡ held.old.own.inodes.next) }
    ensures ok { OnOk result (held.new.own ≡ with_inodes
        (inode_created (inode_value made) held.old.own.inodes) held.old.own) }
    ensures err { OnErr result (held.new.own ≡ held.old.own) }
    ensures stripes { held.new.stripes ≡ held.old.stripes }
{
    held.own.get_mut().inodes.create(made)
}

/// Puts what a new node has beside its inode: entries, if it is a directory, its text, if it is a
/// symbolic link, its cards, and its name. Where memory runs out some of it may be there, but not
/// the name.
fn tie(
    alloc: Global,
    held: &mut LogicalHeld<Files>,
    directory: Fileid,
    name: Name,
    fileid: Fileid,
    owner: Ownership,
    kind: InodeKind,
    text: Option<Name>,
) -> Result<(), AllocError>
    requires few { held.old.own.stripes ≤ 16 }
    requires apart { (directory.0 == fileid.0) ≡ false }
    requires cookies { IfSome (get held.old.own.directories directory.0) (λ d. d.next < 2 ^ 63) }
    requires absent { IfSome (get held.old.own.directories directory.0)
        (λ d. found d name ≡ None) }
    ensures own { OnOk result (held.new.own ≡ with_directories
        (changed_at (added name fileid.0) directory.0
        (directories_made (kind_value kind) fileid.0 held.old.own.directories))
        (with_texts (texts_made text fileid.0 held.old.own.texts) held.old.own)) }
    ensures cards { OnOk result (InFirst
        (HasCard (ownership_of owner) (kind_value kind) fileid.0)
        held.old.own.stripes held.old.stripes.at held.new.stripes.at) }
    ensures others { InFirst (DiffersByCard fileid.0) held.old.own.stripes
        held.old.stripes.at held.new.stripes.at }
    ensures err { OnErr result (without_parts fileid.0 held.new.own
        ≡ without_parts fileid.0 held.old.own) }
{
    put_directory(alloc, held, fileid, kind)?;
    put_text(held, fileid, text)?;
    put_cards(held, fileid, owner, kind)?;
    add_entry(held, directory, name, fileid)
}

/// Puts the entries of a new directory, which has none; nothing else has entries.
fn put_directory(
    alloc: Global,
    held: &mut LogicalHeld<Files>,
    fileid: Fileid,
    kind: InodeKind,
) -> Result<(), AllocError>
    ensures ok { OnOk result (held.new.own ≡ with_directories
        (directories_made (kind_value kind) fileid.0 held.old.own.directories) held.old.own) }
    ensures err { OnErr result (held.new.own ≡ held.old.own) }
    ensures stripes { held.new.stripes ≡ held.old.stripes }
{
    match kind {
        InodeKind::RegularFile { .. } => Ok(()),
        InodeKind::Special { .. } => Ok(()),
        InodeKind::Directory { .. } => {
            let entries = Directory::new(alloc);
            held.own.get_mut().directories.insert(fileid, entries)
        }
    }
}

/// A copy of the text of a new symbolic link, if it is one.
fn text_kept(alloc: Global, text: &[u8]) -> Result<Option<Name>, AllocError>
    ensures { IfOk result (λ kept. kept ≡ text_given text.now) }
{
    if text.is_empty() {
        return Ok(None);
    }
    let text = Name::copied(alloc, text)?;
    Ok(Some(text))
}

/// Puts the text of a new symbolic link, if it is one.
fn put_text(
    held: &mut LogicalHeld<Files>,
    fileid: Fileid,
    text: Option<Name>,
) -> Result<(), AllocError>
    ensures ok { OnOk result (held.new.own
        ≡ with_texts (texts_made text fileid.0 held.old.own.texts) held.old.own) }
    ensures err { OnErr result (held.new.own ≡ held.old.own) }
    ensures stripes { held.new.stripes ≡ held.old.stripes }
{
    match text {
        Some(text) => held.own.get_mut().texts.insert(fileid, text),
        None => Ok(()),
    }
}

/// Adds an entry to a directory.
pub(crate) fn add_entry(
    held: &mut LogicalHeld<Files>,
    directory: Fileid,
    name: Name,
    fileid: Fileid,
) -> Result<(), AllocError>
    requires cookies { IfSome (get held.old.own.directories directory.0) (λ d. d.next < 2 ^ 63) }
    requires absent { IfSome (get held.old.own.directories directory.0)
        (λ d. found d name ≡ None) }
    ensures ok { OnOk result (held.new.own ≡ with_directories
        (changed_at (added name fileid.0) directory.0 held.old.own.directories) held.old.own) }
    ensures err { OnErr result (held.new.own ≡ held.old.own) }
    ensures stripes { held.new.stripes ≡ held.old.stripes }
{
    let own = held.own.get_mut();
    own.directories.add_entry(directory, name, fileid)
}

/// Takes out again what there is of a node whose inode was made last. It takes no memory.
fn unmake(held: &mut LogicalHeld<Files>, created: Created)
    requires few { held.old.own.stripes ≤ 16 }
    requires last { held.old.own.inodes.next ≡ created + 1 }
    requires made { is_some (inode_of held.old.own.inodes created) ≡ true }
    ensures own { held.new.own ≡ node_unmade created held.old.own }
    ensures cards { InFirst (IsDropped created) held.old.own.stripes
        held.old.stripes.at held.new.stripes.at }
{
    drop_cards(held, created.fileid());
    drop_inode(held, created);
}

/// Takes out the inode that was made last, and the entries and the text of its fileid.
fn drop_inode(held: &mut LogicalHeld<Files>, created: Created)
    requires last { held.old.own.inodes.next ≡ created + 1 }
    requires made { is_some (inode_of held.old.own.inodes created) ≡ true }
    ensures own { held.new.own ≡ node_unmade created held.old.own }
    ensures stripes { held.new.stripes ≡ held.old.stripes }
{
    let own = held.own.get_mut();
    own.directories.remove(created.fileid());
    own.texts.remove(created.fileid());
    own.inodes.undo_create(created);
}

/// Sets the inode of a directory in which a node of a kind is made.
fn set_directory(held: &mut LogicalHeld<Files>, parent: Parent, made: InodeKind)
    requires { IfSome (subdirectories_in (kind_value parent.inode.kind))
        (λ subdirectories. subdirectories < inodes_of_a_volume) }
    ensures own { held.new.own ≡ with_inodes (inode_set parent.fileid.0
        (inode_dated (inode_value parent.inode) (kind_value made) (moment_of parent.moment))
        held.old.own.inodes) held.old.own }
    ensures stripes { held.new.stripes ≡ held.old.stripes }
{
    let changed = dated(parent, made);
    held.own.get_mut().inodes.set(parent.fileid, changed);
}

/// The inode of a directory in which a node of a kind is made: both times are the moment's, and a
/// directory is one more subdirectory.
pub(crate) fn dated(parent: Parent, made: InodeKind) -> Inode
    requires { IfSome (subdirectories_in (kind_value parent.inode.kind))
        (λ subdirectories. subdirectories < inodes_of_a_volume) }
    ensures { inode_value result ≡ inode_dated (inode_value parent.inode) (kind_value made)
        (moment_of parent.moment) }
{
    let attributes = StoredAttributes {
        mtime: parent.moment,
        ctime: parent.moment,
        ..parent.inode.attributes
    };
    Inode {
        attributes,
        kind: with_child(parent.inode.kind, made),
        ..parent.inode
    }
}

/// What a directory is that gets a node of a kind: a directory is one more subdirectory.
pub fn with_child(kind: InodeKind, made: InodeKind) -> InodeKind
    requires { HasFewLinks (kind_value kind) }
    ensures { kind_value result
        ≡ with_subdirectories (directories_in (kind_value made)) (kind_value kind) }
{
    match kind {
        InodeKind::RegularFile { .. } => kind,
        InodeKind::Special { .. } => kind,
        InodeKind::Directory {
            parent,
            subdirectories,
        } => InodeKind::Directory {
            parent,
            subdirectories: subdirectories + directories_in(made),
        },
    }
}

/// How many directories a node is.
pub(crate) fn directories_in(kind: InodeKind) -> u32
    ensures told { result ≡ directories_in (kind_value kind) }
    ensures most { result ≤ 1 }
{
    match kind {
        InodeKind::RegularFile { .. } => 0,
        InodeKind::Special { .. } => 0,
        InodeKind::Directory { .. } => 1,
    }
}
