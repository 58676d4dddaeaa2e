//! The set-id bits of what callers write.

ghost use Rattle.std.specs.Prelude.{◌≡◌, ◌&&◌, false};
ghost use Rattle.std.specs.Option.{option_map};
ghost use Rattle.nfs_values.specs.Caller.{caller_of};
ghost use Rattle.nfs_values.specs.Ownership.{ownership_of};
ghost use Rattle.nfs_model.specs.Serial.Rights.{without_set_ids};
ghost use Rattle.parcels.specs.Filled.{logical_alike};
ghost use Rattle.filer_state.specs.state.Changes.{mode_put};
ghost use Rattle.filer_state.specs.state.Sets.{logical_after, logical_before};
ghost use Rattle.filer_state.specs.bytes.Permitted.{clears_owned};
ghost use Rattle.service_data.specs.SetIds.{set_cleared, tells_written};
ghost use Rattle.service_data.specs.Stripes.{HasStripes};

use crate::homes::own_cards;
use crate::owners::ends_set_ids;
use filer_state::Files;
use inodes::{Inode, StoredAttributes};
use nfs_values::answer::WriteResults;
use nfs_values::{Caller, Fileid, Ownership, Status};
use parcels::LogicalHeld;
use rights::without_set_ids;
use std::alloc::AllocError;

/// Ends that a file is run as its owner or its group, where a WRITE by this caller has written
/// bytes to it: the mode is put in its inode, and on its card in each stripe. It takes no memory.
pub(crate) fn clear_set_ids(
    held: &mut LogicalHeld<Files>,
    caller: &Caller,
    fileid: Fileid,
    owner: Option<Ownership>,
    told: &Result<Option<Result<WriteResults, Status>>, AllocError>,
)
    requires { HasStripes held.old }
    ensures set { logical_after held.old held.new
        ≡ set_cleared (clears_owned (caller_of caller.now) (option_map ownership_of owner)
        && tells_written told.now) (option_map ownership_of owner) fileid.0
        (logical_before held.old) }
    ensures kept { tells_written told.now ≡ false → held.new ≡ held.old }
    ensures alike { logical_alike held.old held.new }
{
    if !ends_set_ids(caller, owner) {
        return;
    }
    if !has_written(told) {
        return;
    }
    match owner {
        Some(owner) => put_mode(held, fileid, without_set_ids(owner.mode)),
        None => {}
    }
}

/// Whether at least one byte was written.
fn has_written(told: &Result<Option<Result<WriteResults, Status>>, AllocError>) -> bool
    ensures { result ≡ tells_written told.now }
{
    match told {
        Ok(Some(Ok(results))) => results.count != 0,
        Ok(Some(Err(_))) => false,
        Ok(None) => false,
        Err(_) => false,
    }
}

/// Puts another mode of a node, where it is there: in its inode, and on its card in each stripe.
fn put_mode(held: &mut LogicalHeld<Files>, fileid: Fileid, mode: u16)
    requires { HasStripes held.old }
    ensures set { logical_after held.old held.new
        ≡ mode_put fileid.0 mode (logical_before held.old) }
    ensures alike { logical_alike held.old held.new }
{
    let inode = match held.own.get().inodes.get(fileid) {
        Some(inode) => inode,
        None => return,
    };
    let attributes = StoredAttributes {
        mode,
        ..inode.attributes
    };
    let inode = Inode {
        attributes,
        ..inode
    };
    held.own.get_mut().inodes.set(fileid, inode);
    own_cards(held, fileid, attributes.ownership());
}
