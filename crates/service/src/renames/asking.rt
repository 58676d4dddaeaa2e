//! What hinders a RENAME.

ghost use Rattle.std.specs.Prelude.{◌≡◌, is_none};
ghost use Rattle.std.specs.Option.{option_map};
ghost use Rattle.nfs_values.specs.Status.{status_of};
ghost use Rattle.inodes.specs.Inode.{kind_value};
ghost use Rattle.service_names.specs.RenamingChanges.{is_held, may_replace, target_may_go};
ghost use Rattle.filer_state.specs.state.Names.{parent_in};
ghost use Rattle.filer_state.specs.state.Sets.{logical_before};
ghost use Rattle.service_names.specs.Naming.{node_value};
ghost use Rattle.service.specs.renames.Renaming.{names_fault};

use filer_state::Files;
use inodes::InodeKind;
use nfs_values::Status;
use parcels::LogicalHeld;
use service_names::{Node, is_dots, is_empty, name_fault};

/// What is wrong with the names: from's first, then to's; INVAL for `.` and `..` in either.
pub(crate) fn names_fault(from: &[u8], to: &[u8]) -> Option<Status>
    ensures { option_map status_of result ≡ names_fault from.now to.now }
{
    if let Some(fault) = name_fault(from) {
        return Some(fault);
    }
    if let Some(fault) = name_fault(to) {
        return Some(fault);
    }
    if is_dots(from) || is_dots(to) {
        return Some(Status::Invalid);
    }
    None
}

/// Whether the target, if there is one, is the node that moves: both names are of one node.
pub(crate) fn is_one_node(moved: Node, target: Option<Node>) -> bool
    ensures { result ≡ is_held (node_value moved) (option_map node_value target) }
{
    match target {
        Some(target) => target.fileid.0 == moved.fileid.0,
        None => false,
    }
}

/// Whether the target may go, if there is one, for a node that takes its name.
pub(crate) fn may_go(held: &LogicalHeld<Files>, moved: Node, target: Option<Node>) -> bool
    ensures { result ≡ target_may_go (logical_before held.now) (node_value moved)
        (option_map node_value target) }
{
    match target {
        Some(target) => may_replace(held, moved.inode.kind, target),
        None => true,
    }
}

/// Whether a node of a kind may take a target's place: neither is a directory, or both are and the
/// target is empty.
fn may_replace(held: &LogicalHeld<Files>, moved: InodeKind, target: Node) -> bool
    ensures { result ≡ may_replace (logical_before held.now) (kind_value moved)
        target.fileid.0 (kind_value target.inode.kind) }
{
    match moved {
        InodeKind::RegularFile { .. } => is_no_directory(target.inode.kind),
        InodeKind::Special { .. } => is_no_directory(target.inode.kind),
        InodeKind::Directory { .. } => {
            if is_no_directory(target.inode.kind) {
                return false;
            }
            is_empty(held, target.fileid)
        }
    }
}

/// Whether a node of a kind isn't a directory.
fn is_no_directory(kind: InodeKind) -> bool
    ensures { result ≡ is_none (parent_in (kind_value kind)) }
{
    match kind {
        InodeKind::RegularFile { .. } => true,
        InodeKind::Special { .. } => true,
        InodeKind::Directory { .. } => false,
    }
}
