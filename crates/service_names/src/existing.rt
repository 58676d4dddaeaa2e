//! CREATE of a name that is there.

ghost use Rattle.std.specs.Prelude.{◌≡◌, ◌≤◌, ◌&&◌, List, is_none, ℕ};
ghost use Rattle.std.specs.Option.{option_map};
ghost use Rattle.nfs_model.specs.Serial.Create.{is_verifier};
ghost use Rattle.nfs_model.specs.Server.{handle_bytes};
ghost use Rattle.nfs_model.specs.Types as types;
ghost use Rattle.nfs_model.specs.Types.{Exclusive, MadeDone, Unchecked};
ghost use Rattle.nfs_values.specs.Answer.{answer_of, node_made as made_told};
ghost use Rattle.nfs_values.specs.declared.answer.Answer.TheVariants.{Create};
ghost use Rattle.nfs_values.specs.Caller.{caller_of};
ghost use Rattle.nfs_values.specs.Moment.{moment_of};
ghost use Rattle.nfs_values.specs.Set.{mode_of, set_of};
ghost use Rattle.parcels.specs.Filled.{logical_alike};
ghost use Rattle.inodes.specs.Inode.{inode_value, kind_value};
ghost use Rattle.filer_state.specs.state.Changes.{shown_inode};
ghost use Rattle.filer_state.specs.state.Lenses.{LogicalSet};
ghost use Rattle.filer_state.specs.state.Sets.{logical_before, logical_after};
ghost use Rattle.filer_state.specs.changes.Making.{create_existing, over_set};
ghost use Rattle.filer_state.specs.changes.Named.{directory_change};
ghost use Rattle.service_names.specs.Changing.{MayBeSet};
ghost use Rattle.service_names.specs.Making.{naming_in_parent};
ghost use Rattle.service_names.specs.Naming.{node_value};
ghost use Rattle.service_names.specs.Shown.{HasFewLinks};

use crate::attributes::set_fault;
use crate::child::directory_change;
use crate::naming::is_same_name;
use crate::node::Node;
use crate::parent::Parent;
use crate::setting::{set_node, set_taken};
use crate::showing::shown;
use crate::touches::latest_touch;
use filer_state::Files;
use inodes::InodeKind;
use nfs_values::answer::MakeResults;
use nfs_values::{Caller, CreateMode, FileHandle, Moment, Named, SetAttributes, Status, Verifier};
use parcels::LogicalHeld;
use rights::over_taken;

/// CREATE where the name is there: EXIST if it is guarded, or for what is no file; an exclusive
/// one answers the file of its verifier, and an unchecked one sets the file. It needs no memory.
pub(crate) fn create_existing(
    held: &mut LogicalHeld<Files>,
    parent: Parent,
    child: Node,
    mode: &CreateMode,
    caller: &Caller,
) -> Result<MakeResults, Status>
    requires may { MayBeSet child.fileid.0 (logical_before held.old) }
    requires links { HasFewLinks (kind_value parent.inode.kind) }
    ensures told { (name : List ℕ) → answer_of (Create result)
        ≡ (create_existing (naming_in_parent parent name (logical_before held.old))
        (mode_of mode.now) (caller_of caller.now) (node_value child)
        (kind_value child.inode.kind)).answer }
    ensures set { (name : List ℕ) → logical_after held.old held.new
        ≡ (create_existing (naming_in_parent parent name (logical_before held.old))
        (mode_of mode.now) (caller_of caller.now) (node_value child)
        (kind_value child.inode.kind)).set }
    ensures alike { logical_alike held.old held.new }
{
    match mode {
        CreateMode::Guarded(_) => Err(Status::Exists),
        CreateMode::Unchecked(set) => set_existing(held, parent, child, set, caller),
        CreateMode::Exclusive(verifier) => tell_existing(held, parent, child, *verifier),
    }
}

/// An unchecked CREATE where the name is there: EXIST for what is no file; a file is set, by a
/// checked caller its size alone.
fn set_existing(
    held: &mut LogicalHeld<Files>,
    parent: Parent,
    child: Node,
    set: &SetAttributes,
    caller: &Caller,
) -> Result<MakeResults, Status>
    requires may { MayBeSet child.fileid.0 (logical_before held.old) }
    requires links { HasFewLinks (kind_value parent.inode.kind) }
    ensures told { (name : List ℕ) → answer_of (Create result)
        ≡ (create_existing (naming_in_parent parent name (logical_before held.old))
        (Unchecked (set_of set.now)) (caller_of caller.now) (node_value child)
        (kind_value child.inode.kind)).answer }
    ensures set { (name : List ℕ) → logical_after held.old held.new
        ≡ (create_existing (naming_in_parent parent name (logical_before held.old))
        (Unchecked (set_of set.now)) (caller_of caller.now) (node_value child)
        (kind_value child.inode.kind)).set }
    ensures alike { logical_alike held.old held.new }
{
    match child.inode.kind {
        InodeKind::Directory { .. } => Err(Status::Exists),
        InodeKind::Special { .. } => Err(Status::Exists),
        InodeKind::RegularFile { .. } => {
            if sets_nothing(caller, set) {
                return Ok(there(parent, child, latest_touch(held, child.fileid)));
            }
            let taken = set_taken(caller, &over_taken(caller, set), child.inode);
            set_over(held, parent, child, &taken)
        }
    }
}

/// Whether an unchecked CREATE leaves a file that is there as it is: that of a checked caller
/// without a size.
fn sets_nothing(caller: &Caller, set: &SetAttributes) -> bool
    ensures { result ≡ (caller.now.is_checked && is_none set.now.size) }
{
    caller.is_checked && set.size.is_none()
}

/// Sets a file that is there, as SETATTR does without a guard.
fn set_over(
    held: &mut LogicalHeld<Files>,
    parent: Parent,
    child: Node,
    set: &SetAttributes,
) -> Result<MakeResults, Status>
    requires may { MayBeSet child.fileid.0 (logical_before held.old) }
    requires links { HasFewLinks (kind_value parent.inode.kind) }
    requires child { HasFewLinks (kind_value child.inode.kind) }
    ensures told { (name : List ℕ) → answer_of (Create result)
        ≡ (over_set (naming_in_parent parent name (logical_before held.old)) (set_of set.now)
        (node_value child)).answer }
    ensures set { (name : List ℕ) → logical_after held.old held.new
        ≡ (over_set (naming_in_parent parent name (logical_before held.old)) (set_of set.now)
        (node_value child)).set }
    ensures alike { logical_alike held.old held.new }
{
    if let Some(fault) = set_fault(held, child.fileid, child.inode, set, None) {
        return Err(fault);
    }
    let inode = set_node(held, child.fileid, child.inode, set, parent.moment);
    let changed = Node {
        fileid: child.fileid,
        inode,
    };
    Ok(there(parent, changed, None))
}

/// An exclusive CREATE where the name is there: EXIST unless it is a file that was created with the
/// verifier.
fn tell_existing(
    held: &LogicalHeld<Files>,
    parent: Parent,
    child: Node,
    verifier: Verifier,
) -> Result<MakeResults, Status>
    requires few { held.now.own.stripes ≤ 16 }
    requires links { HasFewLinks (kind_value parent.inode.kind) }
    ensures told { (caller : types.Caller) (name : List ℕ) → answer_of (Create result)
        ≡ (create_existing (naming_in_parent parent name (logical_before held.now))
        (Exclusive verifier.0) caller (node_value child) (kind_value child.inode.kind)).answer }
    ensures set { (caller : types.Caller) (name : List ℕ) → logical_before held.now
        ≡ (create_existing (naming_in_parent parent name (logical_before held.now))
        (Exclusive verifier.0) caller (node_value child) (kind_value child.inode.kind)).set }
{
    match child.inode.kind {
        InodeKind::Directory { .. } => Err(Status::Exists),
        InodeKind::Special { .. } => Err(Status::Exists),
        InodeKind::RegularFile { verifier: kept, .. } => {
            if is_verifier(kept, verifier) {
                return Ok(there(parent, child, latest_touch(held, child.fileid)));
            }
            Err(Status::Exists)
        }
    }
}

/// Whether a file was created with a verifier.
fn is_verifier(kept: Option<Verifier>, verifier: Verifier) -> bool
    ensures { result ≡ is_verifier (option_map (λ v. v.0) kept) verifier.0 }
{
    match kept {
        Some(kept) => is_same_name(&kept.0, &verifier.0),
        None => false,
    }
}

/// A node that is there, in a directory that doesn't change.
fn there(parent: Parent, child: Node, touch: Option<Moment>) -> MakeResults
    requires links { HasFewLinks (kind_value parent.inode.kind) }
    requires child { HasFewLinks (kind_value child.inode.kind) }
    ensures { (name : List ℕ) (s : LogicalSet) → made_told result
        ≡ MadeDone (handle_bytes parent.volume.0 child.fileid.0)
        (shown_inode parent.volume.0 child.fileid.0 (inode_value child.inode)
        (option_map moment_of touch))
        (directory_change (naming_in_parent parent name s) (inode_value parent.inode)) }
{
    let volume = parent.volume;
    let directory = Node {
        fileid: parent.fileid,
        inode: parent.inode,
    };
    MakeResults {
        handle: FileHandle::naming(Named {
            volume,
            fileid: child.fileid,
        }),
        object: shown(volume, child.fileid, child.inode, touch),
        directory: directory_change(volume, directory, parent.inode),
    }
}
