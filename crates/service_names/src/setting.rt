//! SETATTR.

ghost use Rattle.std.specs.Prelude.{◌≡◌, []};
ghost use Rattle.std.specs.Option.{option_map};
ghost use Rattle.nfs_values.specs.Answer.{answer_of};
ghost use Rattle.nfs_values.specs.declared.answer.Answer.TheVariants as answers;
ghost use Rattle.filer_state.specs.state.Lenses.{logical_lens};
ghost use Rattle.filer_state.specs.state.Promises.{HasVolume};
ghost use Rattle.parcels.specs.Filled.{logical_alike};
ghost use Rattle.nfs_values.specs.Caller.{caller_of};
ghost use Rattle.nfs_values.specs.Moment.{moment_of};
ghost use Rattle.nfs_values.specs.Set.{set_of};
ghost use Rattle.inodes.specs.Inode.{attributes_value, inode_value};
ghost use Rattle.filer_state.specs.changes.Attributes.{held_setattr, node_changed, taken_of};
ghost use Rattle.filer_state.specs.state.Changes.{node_set};
ghost use Rattle.filer_state.specs.state.Sets.{logical_before, logical_after};
ghost use Rattle.service_names.specs.Promises.{SetsAttributes};
ghost use Rattle.service_names.specs.Changing.{MayBeSet, with_value};

use crate::attributes::{attributes_now, set_fault, with_attributes};
use crate::protection::protection_of;
use crate::showing::{prior, shown, shown_now};
use crate::sizing::{set_inode, size_file};
use crate::touches::{latest_touch, settle_stripes};
use filer_state::Files;
use filer_state::changes::setting_calls_are_right;
use inodes::{Inode, InodeKind, StoredAttributes};
use nfs_values::{Caller, Change, Fileid, Moment, SetAttributes, Status, VolumeNumber};
use parcels::LogicalHeld;
use rights::set_checked;

/// SETATTR (RFC 1813 section 3.3.2), on the parcels of a volume's names and attributes, at a
/// moment: STALE where there is no node of the fileid, NOT_SYNC where a guard is another ctime,
/// INVAL for a bad time or a size of what is no file, FBIG for a size over the largest; else the
/// node is set, and the blocks that leave a file are dead. It needs no memory.
pub fn set_attributes(
    held: &mut LogicalHeld<Files>,
    volume: VolumeNumber,
    fileid: Fileid,
    set: &SetAttributes,
    guard: Option<Moment>,
    caller: &Caller,
    moment: Moment,
) -> Result<Change, Status>
    requires whole { HasVolume volume.0 logical_lens [] (logical_before held.old) }
    ensures right { SetsAttributes volume.0 fileid.0 (set_of set.now)
        (option_map moment_of guard) (caller_of caller.now) (moment_of moment)
        (logical_before held.old) result (logical_after held.old held.new) }
    ensures alike { logical_alike held.old held.new }
{
    setting_calls_are_right();
    attributes_set(held, volume, fileid, set, guard, caller, moment)
}

/// What SETATTR comes to.
fn attributes_set(
    held: &mut LogicalHeld<Files>,
    volume: VolumeNumber,
    fileid: Fileid,
    set: &SetAttributes,
    guard: Option<Moment>,
    caller: &Caller,
    moment: Moment,
) -> Result<Change, Status>
    requires whole { HasVolume volume.0 logical_lens [] (logical_before held.old) }
    ensures answer { answer_of (answers.SetAttributes result) ≡ (held_setattr volume.0 fileid.0
        (set_of set.now) (option_map moment_of guard) (caller_of caller.now) (moment_of moment)
        (logical_before held.old)).answer }
    ensures set { logical_after held.old held.new ≡ (held_setattr volume.0 fileid.0
        (set_of set.now) (option_map moment_of guard) (caller_of caller.now) (moment_of moment)
        (logical_before held.old)).set }
    ensures alike { logical_alike held.old held.new }
{
    let inode = match held.own.get().inodes.get(fileid) {
        Some(inode) => inode,
        None => return Err(Status::Stale),
    };
    if let Some(fault) = set_fault(held, fileid, inode, set, guard) {
        return Err(fault);
    }
    let before = prior(shown_now(held, volume, fileid, inode));
    let taken = set_taken(caller, set, inode);
    let changed = set_node(held, fileid, inode, &taken, moment);
    let after = shown(volume, fileid, changed, None);
    Ok(Change { before, after })
}

/// What a caller sets of a node: of a directory, all that is given; of anything else with the
/// mode that it may have.
pub(crate) fn set_taken(caller: &Caller, set: &SetAttributes, inode: Inode) -> SetAttributes
    ensures { set_of result
        ≡ taken_of (caller_of caller.now) (set_of set.now) (inode_value inode) }
{
    match inode.kind {
        InodeKind::Directory { .. } => *set,
        _ => set_checked(caller, set, &protection_of(&inode)),
    }
}

/// Sets the node of a fileid, whose inode this is, to attributes at a moment, and tells its inode
/// after it. It needs no memory.
pub(crate) fn set_node(
    held: &mut LogicalHeld<Files>,
    fileid: Fileid,
    inode: Inode,
    set: &SetAttributes,
    moment: Moment,
) -> Inode
    requires { MayBeSet fileid.0 (logical_before held.old) }
    ensures inode { inode_value result ≡ (node_changed fileid.0 (set_of set.now)
        (moment_of moment) (inode_value inode) (logical_before held.old)).inode }
    ensures set { logical_after held.old held.new ≡ (node_changed fileid.0 (set_of set.now)
        (moment_of moment) (inode_value inode) (logical_before held.old)).set }
    ensures alike { logical_alike held.old held.new }
{
    let touch = latest_touch(held, fileid);
    let attributes = with_attributes(attributes_now(inode, touch), set, moment);
    match set.size {
        Some(size) => size_file(held, fileid, inode, attributes, size),
        None => settle_node(held, fileid, inode, attributes),
    }
}

/// Sets the node of a fileid, whose inode this is, to attributes: its touches are taken, and its
/// cards get its owner.
fn settle_node(
    held: &mut LogicalHeld<Files>,
    fileid: Fileid,
    inode: Inode,
    attributes: StoredAttributes,
) -> Inode
    requires { MayBeSet fileid.0 (logical_before held.old) }
    ensures inode { inode_value result
        ≡ with_value (inode_value inode) (attributes_value attributes) }
    ensures set { logical_after held.old held.new ≡ node_set fileid.0
        (with_value (inode_value inode) (attributes_value attributes))
        (logical_before held.old) }
    ensures alike { logical_alike held.old held.new }
{
    settle_stripes(held, fileid, attributes.ownership());
    let changed = Inode {
        attributes,
        ..inode
    };
    set_inode(held, fileid, changed);
    changed
}
