//! Directories above others.

ghost use Rattle.std.specs.Prelude.{◌≡◌};
ghost use Rattle.std.specs.FinMap.{get};
ghost use Rattle.std.specs.Option.{option_map};
ghost use Rattle.nfs_model.specs.Serial.Rename.{climb_fault};
ghost use Rattle.nfs_values.specs.Status.{status_of};
ghost use Rattle.directories.specs.Index.{fileid_number};
ghost use Rattle.inodes.specs.Inode.{kind_value};
ghost use Rattle.filer_state.specs.state.Names.{parent_directory};
ghost use Rattle.filer_state.specs.state.Sets.{logical_before};
ghost use Rattle.service_names.specs.RenamingChanges.{above, climbs, held_above};
ghost use Rattle.service.specs.renames.Climbing.{climb_of};
ghost use Rattle.service.specs.renames.Renaming.{renaming_in};
ghost use Rattle.std.specs.Prelude.{List, ℕ};

use crate::renames::between::Between;
use crate::renames::climb::Climb;
use filer_state::Files;
use inodes::InodeKind;
use nfs_values::{Fileid, Status};
use parcels::LogicalHeld;
use service_names::Node;

/// What is wrong with the directory into which a node comes: INVAL where a directory would come
/// into itself or below itself, NAMETOOLONG where it would come so deep that it isn't known.
pub(crate) fn above_fault(
    held: &LogicalHeld<Files>,
    between: Between,
    child: Node,
) -> Option<Status>
    ensures { (from_name to_name : List ℕ) → option_map status_of result
        ≡ climb_fault (held_above
        (renaming_in between from_name to_name (logical_before held.now))
        child.fileid.0 (kind_value child.inode.kind)) }
{
    match child.inode.kind {
        InodeKind::RegularFile { .. } => None,
        InodeKind::Special { .. } => None,
        InodeKind::Directory { .. } => {
            if between.from.fileid.0 == between.to.fileid.0 {
                return None;
            }
            climb(held, child.fileid, between.to.fileid).fault()
        }
    }
}

/// What as many steps as the volume allows, from a directory to its parent, come to on the way to a
/// target.
fn climb(held: &LogicalHeld<Files>, target: Fileid, fileid: Fileid) -> Climb
    ensures { climb_of result ≡ climbs held.now.own.most_steps held.now.own.inodes.inodes
        target.0 fileid.0 }
{
    let mut at = fileid;
    let mut left = held.own.get().most_steps;
    while left > 0 {
        if at.0 == target.0 {
            return Climb::ToIt;
        }
        match above(held, at) {
            Some(parent) => at = parent,
            None => return Climb::PastIt,
        }
        left -= 1;
    }
    if at.0 == target.0 {
        return Climb::ToIt;
    }
    Climb::TooFar
}

/// The parent of a directory, if it isn't its own; nothing else has one.
fn above(held: &LogicalHeld<Files>, fileid: Fileid) -> Option<Fileid>
    ensures { fileid_number result
        ≡ above fileid.0 (parent_directory (get held.now.own.inodes.inodes fileid.0)) }
{
    let inode = match held.own.get().inodes.get(fileid) {
        Some(inode) => inode,
        None => return None,
    };
    match inode.kind {
        InodeKind::RegularFile { .. } => None,
        InodeKind::Special { .. } => None,
        InodeKind::Directory { parent, .. } => {
            if parent.0 == fileid.0 {
                return None;
            }
            Some(parent)
        }
    }
}
