//! Calls of MOUNT that need no affinity (RFC 1813 appendix I): all but a MNT below a root.

ghost use Rattle.std.specs.Prelude.{◌≡◌, ◌==◌, ◌≤◌, length};
ghost use Rattle.std.specs.List.{find};
ghost use Rattle.nfs_model.specs.Serial.Mount.{exported, mnt, mount, mounted, parts};
ghost use Rattle.affinity.specs.Layout.{layout_of};
ghost use Rattle.nfs_values.specs.Answer.{answer_of};
ghost use Rattle.nfs_values.specs.Mount.{mount_call_of};
ghost use Rattle.nfs_values.specs.declared.answer.Answer.TheVariants.{Mount};

use affinity::Layout;
use nfs_values::{
    Answer, Exports, FileHandle, Fileid, MOST_PATH, MountCall, MountResults, Named, Status,
    VolumeNumber, is_absolute, next_part, volume_named,
};

/// The first of this many volumes, if there are any.
fn first_of(volumes: u32) -> Option<u32>
    ensures { result ≡ find (λ volume. volume == 0) (exported volumes) }
{
    if volumes == 0 { None } else { Some(0) }
}

/// Which of this many volumes' roots a path is: that of the volume which its only part names, or
/// the first one's where it has none.
fn mounted(path: &[u8], volumes: u32) -> Option<u32>
    requires { volumes ≤ 8 }
    ensures { result ≡ mounted volumes (parts path.now) }
{
    let (part, behind) = match next_part(path) {
        Some(next) => next,
        None => return first_of(volumes),
    };
    match next_part(behind) {
        Some(_) => None,
        None => volume_named(part, 0, volumes),
    }
}

/// MNT of a root, of this many volumes.
fn answer_path(path: &[u8], volumes: u32) -> Result<MountResults, Status>
    requires { volumes ≤ 8 }
    ensures { answer_of (Mount result) ≡ mnt volumes path.now }
{
    if path.len() > MOST_PATH {
        return Err(Status::NameTooLong);
    }
    if !is_absolute(path) {
        return Err(Status::Invalid);
    }
    let Some(volume) = mounted(path, volumes) else {
        return Err(Status::NoEntry);
    };
    let root = Named {
        volume: VolumeNumber(volume),
        fileid: Fileid::ROOT,
    };
    Ok(MountResults {
        handle: FileHandle::naming(root),
    })
}

/// What a call of MOUNT is answered under a layout.
pub(crate) fn answer_mount(call: &MountCall, layout: &Layout) -> Answer
    ensures { answer_of result
        ≡ mount (length (layout_of layout.now).volumes) (mount_call_of call.now) }
{
    let volumes = layout.volume_count() as u32;
    match call {
        MountCall::Mount { path } => Answer::Mount(answer_path(path.as_bytes(), volumes)),
        MountCall::ListMounts => Answer::ListMounts,
        MountCall::ListExports => Answer::ListExports(Exports { volumes }),
        MountCall::Unmount => Answer::Null,
    }
}
