//! COMMIT.

ghost use Rattle.std.specs.Prelude.{◌≡◌, ◌||◌, false, []};
ghost use Rattle.std.specs.FinMap.{get};
ghost use Rattle.std.specs.Option.{option_map};
ghost use Rattle.nfs_model.specs.Serial.Permission.{needs, refusal_of};
ghost use Rattle.nfs_model.specs.Serial.Rights.{may_read, may_write};
ghost use Rattle.nfs_values.specs.Caller.{caller_of};
ghost use Rattle.nfs_values.specs.Credential.{credential_of};
ghost use Rattle.nfs_values.specs.Status.{status_of};
ghost use Rattle.filer_state.specs.permissions.Refusing.{of_file_inode};
ghost use Rattle.filer_state.specs.state.Lenses.{logical_lens};
ghost use Rattle.filer_state.specs.state.Promises.{HasVolume};
ghost use Rattle.filer_state.specs.state.Sets.{logical_before};
ghost use Rattle.service_names.specs.Promises.{Commits};

use crate::protection::protection_of;
use crate::showing::{prior, shown_now};
use filer_state::Files;
use inodes::InodeKind;
use nfs_values::answer::CommitResults;
use nfs_values::{Caller, Change, Credential, Fileid, Status, VolumeNumber};
use parcels::LogicalHeld;
use rights::{asked_first, may_read, may_write, needs};

/// COMMIT (RFC 1813 section 3.3.21), on the parcels of a volume's names and attributes: STALE, or
/// INVAL for what is no file; else the attributes of a file and the verifier of writes, all of
/// which are stable (our profile). It takes no memory.
pub fn commit(
    held: &LogicalHeld<Files>,
    volume: VolumeNumber,
    fileid: Fileid,
) -> Result<CommitResults, Status>
    requires whole { HasVolume volume.0 logical_lens [] (logical_before held.now) }
    ensures right { Commits volume.0 fileid.0 (logical_before held.now) result }
{
    let inode = match held.own.get().inodes.get(fileid) {
        Some(inode) => inode,
        None => return Err(Status::Stale),
    };
    match inode.kind {
        InodeKind::Directory { .. } => Err(Status::Invalid),
        InodeKind::Special { .. } => Err(Status::Invalid),
        InodeKind::RegularFile { .. } => {
            let after = shown_now(held, volume, fileid, inode);
            let before = prior(after);
            Ok(CommitResults {
                file: Change { before, after },
                verifier: held.own.get().verifier,
            })
        }
    }
}

/// A refusal of a COMMIT.
pub fn committing_refusal(
    held: &LogicalHeld<Files>,
    fileid: Fileid,
    caller: &Caller,
) -> Option<Status>
    ensures { option_map status_of result ≡ refusal_of (caller_of caller.now) false
        (of_file_inode (get held.now.own.inodes.inodes fileid.0)
        (λ file. needs (may_read (credential_of caller.now.credential) file
        || may_write (credential_of caller.now.credential) file))) }
{
    match asked_first(caller, false) {
        Ok(()) => committing_fault(held, fileid, &caller.credential),
        Err(told) => told,
    }
}

/// What of a COMMIT is refused to a caller that is checked: of a file that it may neither read nor
/// write.
fn committing_fault(held: &LogicalHeld<Files>, fileid: Fileid, who: &Credential) -> Option<Status>
    ensures { option_map status_of result
        ≡ of_file_inode (get held.now.own.inodes.inodes fileid.0)
        (λ file. needs (may_read (credential_of who.now) file
        || may_write (credential_of who.now) file)) }
{
    let inode = held.own.get().inodes.get(fileid)?;
    match inode.kind {
        InodeKind::Directory { .. } => None,
        InodeKind::Special { .. } => None,
        InodeKind::RegularFile { .. } => {
            let file = protection_of(&inode);
            let may = may_read(who, &file) || may_write(who, &file);
            needs(may)
        }
    }
}
