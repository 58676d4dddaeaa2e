//! Nodes that give their names to others.

ghost use Rattle.std.specs.Prelude.{◌≡◌, ◌≤◌, ◌<◌, ◌^◌, ℕ, List, IfSome};
ghost use Rattle.std.specs.Option.{option_map};
ghost use Rattle.nfs_values.specs.Moment.{moment_of};
ghost use Rattle.parcels.specs.Filled.{logical_alike};
ghost use Rattle.service_names.specs.NamedChanges.{HeldNode};
ghost use Rattle.filer_state.specs.state.Sets.{logical_before, logical_after};
ghost use Rattle.service_names.specs.Changing.{MayBeSet};
ghost use Rattle.service_names.specs.Naming.{naming_of, node_value};
ghost use Rattle.inodes.specs.Inode.{kind_value};
ghost use Rattle.service.specs.renames.Moving.{emptied_gone, name_out, node_gone, target_out};
ghost use Rattle.service.specs.renames.Renaming.{IsWithin};

use crate::renames::between::Between;
use filer_state::Files;
use inodes::InodeKind;
use nfs_values::Moment;
use parcels::LogicalHeld;
use service_names::{
    Node, counted_inode, directory_left, drop_cards, drop_directory, drop_inode, drop_text,
    set_inode, size_file, take_touches,
};

/// Takes its name from the target, if there is one, whose entry is gone: with its last name it is
/// dropped, and a file's blocks are dead then. It takes no memory.
pub(crate) fn drop_target(held: &mut LogicalHeld<Files>, between: Between, target: Option<Node>)
    requires few { held.old.own.stripes ≤ 16 }
    requires used { held.old.own.inodes.used < 2 ^ 62 }
    requires within { IsWithin (kind_value between.to.inode.kind) }
    requires sized { IfSome (option_map node_value target)
        (λ (t : HeldNode). MayBeSet t.fileid (logical_before held.old)) }
    ensures set { logical_after held.old held.new
        ≡ target_out between (option_map node_value target) (logical_before held.old) }
    ensures alike { logical_alike held.old held.new }
{
    let Some(target) = target else {
        return;
    };
    if target.inode.names > 1 {
        return drop_name(held, between.to, target, between.moment);
    }
    match target.inode.kind {
        InodeKind::RegularFile { .. } => drop_file(held, between.to, target, between.moment),
        InodeKind::Directory { .. } => drop_node(held, between.to, target, between.moment),
        InodeKind::Special { .. } => drop_node(held, between.to, target, between.moment),
    }
}

/// Takes a name from a node of a directory, whose entry is gone, and which has others: the node
/// settles. It takes no memory.
fn drop_name(held: &mut LogicalHeld<Files>, directory: Node, child: Node, moment: Moment)
    requires few { held.old.own.stripes ≤ 16 }
    requires used { held.old.own.inodes.used < 2 ^ 62 }
    requires within { IsWithin (kind_value directory.inode.kind) }
    requires more { 1 < child.inode.names }
    ensures set { (v : ℕ) (name : List ℕ) → logical_after held.old held.new ≡ name_out
        (naming_of v directory name (moment_of moment) (logical_before held.old))
        (node_value child) (logical_before held.old) }
    ensures alike { logical_alike held.old held.new }
{
    let left = directory_left(directory.inode, child.inode.kind, moment);
    set_inode(held, directory.fileid, left);
    let touch = take_touches(held, child.fileid);
    let counted = counted_inode(child.inode, touch, child.inode.names - 1, moment);
    set_inode(held, child.fileid, counted);
}

/// Drops a file of a directory, whose entry is gone; its blocks are dead. It needs no memory.
fn drop_file(held: &mut LogicalHeld<Files>, directory: Node, child: Node, moment: Moment)
    requires { MayBeSet child.fileid.0 (logical_before held.old) }
    ensures set { (v : ℕ) (name : List ℕ) → logical_after held.old held.new ≡ emptied_gone
        (naming_of v directory name (moment_of moment) (logical_before held.old))
        (node_value child) (logical_before held.old) }
    ensures alike { logical_alike held.old held.new }
{
    let inode = size_file(held, child.fileid, child.inode, child.inode.attributes, 0);
    let emptied = Node {
        fileid: child.fileid,
        inode,
    };
    drop_node(held, directory, emptied, moment);
}

/// Drops a node without bytes and entries of a directory, whose entry is gone. It takes no memory.
fn drop_node(held: &mut LogicalHeld<Files>, directory: Node, child: Node, moment: Moment)
    requires few { held.old.own.stripes ≤ 16 }
    requires used { held.old.own.inodes.used < 2 ^ 63 }
    ensures set { (v : ℕ) (name : List ℕ) → logical_after held.old held.new ≡ node_gone
        (naming_of v directory name (moment_of moment) (logical_before held.old))
        (node_value child) (logical_before held.old) }
    ensures alike { logical_alike held.old held.new }
{
    let left = directory_left(directory.inode, child.inode.kind, moment);
    drop_cards(held, child.fileid);
    drop_inode(&mut held.own, child.fileid, directory.fileid, left);
    drop_directory(&mut held.own, child.inode.kind, child.fileid);
    drop_text(&mut held.own, child.inode.kind, child.fileid);
}
