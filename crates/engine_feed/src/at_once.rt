//! Calls that need no affinity.

ghost use Rattle.std.specs.Prelude.{◌≡◌, Err};
ghost use Rattle.nfs_model.specs.Home.{named_by};
ghost use Rattle.nfs_model.specs.Serial.AtOnce.{answer_of_two, answer_without_home};
ghost use Rattle.affinity.specs.Layout.{layout_of};
ghost use Rattle.nfs_values.specs.Answer.{answer_of};
ghost use Rattle.nfs_values.specs.Call.{call_of};
ghost use Rattle.nfs_values.specs.declared.answer.Answer.TheVariants.{Rename, MakeLink};

use crate::mounting::answer_mount;
use affinity::Layout;
use affinity::homes::named_by;
use nfs_values::{Answer, Call, FileHandle, Status};
use std::alloc::Global;

/// What a call without an affinity is answered under a layout.
pub(crate) fn answer_at_once(alloc: Global, call: &Call, layout: &Layout) -> Answer
    ensures { answer_of result ≡ answer_without_home (layout_of layout.now) (call_of call.now) }
{
    match call {
        Call::Null => Answer::Null,
        Call::GetAttributes { .. } => Answer::GetAttributes(Err(Status::BadHandle)),
        Call::SetAttributes { .. } => Answer::SetAttributes(Err(Status::BadHandle)),
        Call::Lookup(_) => Answer::Lookup(Err(Status::BadHandle)),
        Call::CheckAccess { .. } => Answer::CheckAccess(Err(Status::BadHandle)),
        Call::ReadLink { .. } => Answer::ReadLink(Err(Status::BadHandle)),
        Call::Read { .. } => Answer::Read(Err(Status::BadHandle)),
        Call::Write { .. } => Answer::Write(Err(Status::BadHandle)),
        Call::Create { .. } => Answer::Create(Err(Status::BadHandle)),
        Call::MakeDirectory { .. } => Answer::MakeDirectory(Err(Status::BadHandle)),
        Call::MakeSymbolicLink { .. } => Answer::MakeSymbolicLink(Err(Status::BadHandle)),
        Call::MakeDevice { .. } => Answer::MakeDevice(Err(Status::BadHandle)),
        Call::Remove(_) => Answer::Remove(Err(Status::BadHandle)),
        Call::RemoveDirectory(_) => Answer::RemoveDirectory(Err(Status::BadHandle)),
        Call::Rename { from, to } => {
            let fault = fault_of_two(&from.directory, &to.directory, layout);
            Answer::Rename(Err(fault))
        }
        Call::MakeLink { handle, target } => {
            let fault = fault_of_two(handle, &target.directory, layout);
            Answer::MakeLink(Err(fault))
        }
        Call::ReadDirectory { .. } => Answer::ReadDirectory(Err(Status::BadHandle)),
        Call::ReadDirectoryPlus { .. } => Answer::ReadDirectoryPlus(Err(Status::BadHandle)),
        Call::FilesystemStatus { .. } => Answer::FilesystemStatus(Err(Status::BadHandle)),
        Call::FilesystemInfo { .. } => Answer::FilesystemInfo(Err(Status::BadHandle)),
        Call::PathConfiguration { .. } => Answer::PathConfiguration(Err(Status::BadHandle)),
        Call::Commit { .. } => Answer::Commit(Err(Status::BadHandle)),
        Call::Census => Answer::Census(Vec::new(alloc)),
        Call::Grow { .. } => Answer::Grow(Err(Status::NoEntry)),
        Call::Stop => Answer::Stop,
        Call::Mount(call) => answer_mount(call, layout),
        Call::MountBelow { .. } => Answer::Mount(Err(Status::NoEntry)),
    }
}

/// What is wrong with the handles of a RENAME or a LINK without an affinity: BADHANDLE where one is
/// bad, else XDEV, since they name two volumes.
fn fault_of_two(from: &FileHandle, to: &FileHandle, layout: &Layout) -> Status
    ensures rename { let L = layout_of layout.now in answer_of (Rename (Err result))
        ≡ answer_of_two 4 (named_by L from.now) (named_by L to.now) }
    ensures link { let L = layout_of layout.now in answer_of (MakeLink (Err result))
        ≡ answer_of_two 3 (named_by L from.now) (named_by L to.now) }
{
    match (named_by(from, layout), named_by(to, layout)) {
        (Some(_), Some(_)) => Status::CrossVolume,
        _ => Status::BadHandle,
    }
}
