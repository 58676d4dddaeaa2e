//! LINK.

ghost use Rattle.std.specs.Prelude.{◌≡◌, ◌<◌, ◌^◌, [], IfOk, OnErr, OnOk, IfSome};
ghost use Rattle.std.specs.FinMap.{get};
ghost use Rattle.std.specs.Option.{option_map};
ghost use Rattle.nfs_values.specs.Answer.{answer_of, link_made};
ghost use Rattle.nfs_values.specs.Moment.{moment_of};
ghost use Rattle.nfs_values.specs.Status.{status_of};
ghost use Rattle.nfs_values.specs.declared.answer.Answer.TheVariants as answers;
ghost use Rattle.nfs_model.specs.volume.Directories.{found};
ghost use Rattle.parcels.specs.Filled.{logical_alike};
ghost use Rattle.inodes.specs.Inode.{inode_value, kind_value};
ghost use Rattle.filer_state.specs.state.Lenses.{logical_lens};
ghost use Rattle.filer_state.specs.state.Names.{parent_in};
ghost use Rattle.filer_state.specs.state.Promises.{HasVolume};
ghost use Rattle.filer_state.specs.state.Sets.{logical_before, logical_after};
ghost use Rattle.filer_state.specs.changes.NameAnswers.{entries_of};
ghost use Rattle.filer_state.specs.changes.Linking.{
  held_linked,
  link_by,
  link_done,
  unless_directory,
  with_three,
};
ghost use Rattle.filer_state.specs.changes.Named.{on_inode};
ghost use Rattle.filer_state.specs.changes.NodesMoved.{dated_inode};
ghost use Rattle.filer_state.specs.state.Changes.{LogicalAnswer};
ghost use Rattle.nfs_model.specs.Serial.Links.{most_links};
ghost use Rattle.nfs_model.specs.volume.Inodes as values;
ghost use Rattle.nfs_model.specs.volume.Inodes.{inode_set};
ghost use Rattle.service_names.specs.Changing.{with_inodes};
ghost use Rattle.service_names.specs.Linking.{LinksOne, MayBeLinked};
ghost use Rattle.service_names.specs.Making.{naming_in_parent};
ghost use Rattle.service_names.specs.Naming.{come_to, node_value};
ghost use Rattle.service_names.specs.Promises.{Links};

use crate::child::{child_at, directory_change, directory_named, is_dots};
use crate::dropping::counted_inode;
use crate::making::add_entry;
use crate::node::Node;
use crate::parent::Parent;
use crate::showing::shown;
use crate::touches::take_touches;
use filer_state::Files;
use filer_state::changes::linking_calls_are_right;
use inodes::{Inode, InodeKind, StoredAttributes};
use nfs_values::answer::LinkResults;
use nfs_values::{Fileid, MOST_LINKS, Moment, Name, Status, VolumeNumber};
use parcels::LogicalHeld;
use std::alloc::{AllocError, Global};

/// LINK (RFC 1813 section 3.3.15), on the parcels of a volume's names and attributes, at a moment:
/// STALE, or INVAL for a directory, of the node; then of the directory STALE, NOTDIR, what is wrong
/// with the name, EXIST for `.`, `..` and a name that is there, MLINK where the node has 65,000
/// names; else the node has the name. Memory runs out only where it would get it, and then nothing
/// has changed.
pub fn make_link(
    alloc: Global,
    held: &mut LogicalHeld<Files>,
    volume: VolumeNumber,
    fileid: Fileid,
    directory: Fileid,
    name: &[u8],
    moment: Moment,
) -> Result<Result<LinkResults, Status>, AllocError>
    requires whole { HasVolume volume.0 logical_lens [] (logical_before held.old) }
    ensures right { Links volume.0 fileid.0 directory.0 name.now (moment_of moment)
        (logical_before held.old) result (logical_after held.old held.new) }
    ensures starved { OnErr result (held.new ≡ held.old) }
    ensures alike { logical_alike held.old held.new }
{
    linking_calls_are_right();
    link_made(alloc, held, volume, fileid, directory, name, moment)
}

/// What LINK comes to.
fn link_made(
    alloc: Global,
    held: &mut LogicalHeld<Files>,
    volume: VolumeNumber,
    fileid: Fileid,
    directory: Fileid,
    name: &[u8],
    moment: Moment,
) -> Result<Result<LinkResults, Status>, AllocError>
    requires whole { HasVolume volume.0 logical_lens [] (logical_before held.old) }
    ensures told { IfOk result (λ told. answer_of (answers.MakeLink told)
        ≡ (link_done volume.0 fileid.0 directory.0 name.now (moment_of moment)
        (logical_before held.old)).answer) }
    ensures set { OnOk result (logical_after held.old held.new
        ≡ (link_done volume.0 fileid.0 directory.0 name.now (moment_of moment)
        (logical_before held.old)).set) }
    ensures would { OnErr result (LinksOne (link_done volume.0 fileid.0 directory.0 name.now
        (moment_of moment) (logical_before held.old)).answer) }
    ensures starved { OnErr result (held.new ≡ held.old) }
    ensures alike { logical_alike held.old held.new }
{
    let inode = match object_linked(held, fileid) {
        Ok(inode) => inode,
        Err(status) => return Ok(Err(status)),
    };
    let object = Node { fileid, inode };
    let inode = match directory_named(held, directory, name) {
        Ok(inode) => inode,
        Err(status) => return Ok(Err(status)),
    };
    if is_dots(name) {
        return Ok(Err(Status::Exists));
    }
    let parent = Parent {
        volume,
        fileid: directory,
        inode,
        moment,
    };
    match child_at(held, directory, name) {
        Some(_) => Ok(Err(Status::Exists)),
        None => link_new(alloc, held, parent, name, object),
    }
}

/// The inode of the node that gets a name: STALE where there is none, INVAL for a directory.
fn object_linked(held: &LogicalHeld<Files>, fileid: Fileid) -> Result<Inode, Status>
    ensures told { (run : values.Inode → LogicalAnswer)
        → on_inode (get held.now.own.inodes.inodes fileid.0) (logical_before held.now)
        (λ inode. unless_directory inode.kind (logical_before held.now) (run inode))
        ≡ come_to (logical_before held.now) run result }
    ensures there { IfOk result (λ inode.
        get held.now.own.inodes.inodes fileid.0 ≡ Some (inode_value inode)) }
    ensures file { IfOk result (λ inode. parent_in (kind_value inode.kind) ≡ None) }
{
    let inode = match held.own.get().inodes.get(fileid) {
        Some(inode) => inode,
        None => return Err(Status::Stale),
    };
    match inode.kind {
        InodeKind::RegularFile { .. } => Ok(inode),
        InodeKind::Directory { .. } => Err(Status::Invalid),
        InodeKind::Special { .. } => Ok(inode),
    }
}

/// Gives a node a name that isn't there: MLINK where it has 65,000 names. Where memory runs out
/// nothing has changed.
fn link_new(
    alloc: Global,
    held: &mut LogicalHeld<Files>,
    parent: Parent,
    name: &[u8],
    object: Node,
) -> Result<Result<LinkResults, Status>, AllocError>
    requires may { object.inode.names < most_links → MayBeLinked
        (naming_in_parent parent name.now (logical_before held.old)) (node_value object) }
    ensures told { IfOk result (λ told. answer_of (answers.MakeLink told) ≡ with_three
        (link_by (node_value object) (naming_in_parent parent name.now (logical_before held.old))
        None).answer) }
    ensures set { OnOk result (logical_after held.old held.new ≡ (link_by (node_value object)
        (naming_in_parent parent name.now (logical_before held.old)) None).set) }
    ensures would { OnErr result (LinksOne (link_by (node_value object)
        (naming_in_parent parent name.now (logical_before held.old)) None).answer) }
    ensures alike { logical_alike held.old held.new }
    ensures err { OnErr result (held.new ≡ held.old) }
{
    if object.inode.names >= MOST_LINKS {
        return Ok(Err(Status::TooManyLinks));
    }
    let told = link(alloc, held, parent, name, object)?;
    Ok(Ok(told))
}

/// Gives a node that isn't a directory one more name, in a directory, and tells it. Where memory
/// runs out nothing has changed.
fn link(
    alloc: Global,
    held: &mut LogicalHeld<Files>,
    parent: Parent,
    name: &[u8],
    object: Node,
) -> Result<LinkResults, AllocError>
    requires may { MayBeLinked (naming_in_parent parent name.now (logical_before held.old))
        (node_value object) }
    ensures told { IfOk result (λ told. link_made told ≡ (held_linked
        (naming_in_parent parent name.now (logical_before held.old)) (node_value object)).answer) }
    ensures set { OnOk result (logical_after held.old held.new ≡ (held_linked
        (naming_in_parent parent name.now (logical_before held.old)) (node_value object)).set) }
    ensures alike { logical_alike held.old held.new }
    ensures err { OnErr result (held.new ≡ held.old) }
{
    let name = Name::copied(alloc, name)?;
    add_entry(held, parent.fileid, name, object.fileid)?;
    let touch = take_touches(held, object.fileid);
    let linked = counted_inode(object.inode, touch, object.inode.names + 1, parent.moment);
    let changed = dated(parent);
    set_both(held, parent.fileid, changed, object.fileid, linked);
    let volume = parent.volume;
    let directory = Node {
        fileid: parent.fileid,
        inode: parent.inode,
    };
    Ok(LinkResults {
        object: shown(volume, object.fileid, linked, None),
        directory: directory_change(volume, directory, changed),
    })
}

/// Sets the inodes of a directory and of the node that it gets a name of.
fn set_both(
    held: &mut LogicalHeld<Files>,
    directory: Fileid,
    changed: Inode,
    fileid: Fileid,
    linked: Inode,
)
    ensures own { held.new.own ≡ with_inodes (inode_set fileid.0 (inode_value linked)
        (inode_set directory.0 (inode_value changed) held.old.own.inodes)) held.old.own }
    ensures stripes { held.new.stripes ≡ held.old.stripes }
{
    let inodes = &mut held.own.get_mut().inodes;
    inodes.set(directory, changed);
    inodes.set(fileid, linked);
}

/// The inode of a directory that gets a name of what isn't a directory: both times are the
/// moment's.
fn dated(parent: Parent) -> Inode
    ensures { inode_value result ≡ dated_inode (moment_of parent.moment)
        (kind_value parent.inode.kind) (inode_value parent.inode) }
{
    Inode {
        attributes: StoredAttributes {
            mtime: parent.moment,
            ctime: parent.moment,
            ..parent.inode.attributes
        },
        ..parent.inode
    }
}
