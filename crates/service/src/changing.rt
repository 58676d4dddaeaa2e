//! Calls under Volume Logical that may change it, one by one, as where nothing is remembered. Each
//! is a function that isn't inlined, since all results that a function may have take room in it,
//! and are set to zero.

ghost use Rattle.std.specs.Prelude.{◌≡◌, Some, []};
ghost use Rattle.std.specs.Option.{option_map};
ghost use Rattle.nfs_model.specs.Home.{home};
ghost use Rattle.affinity.specs.Layout.{layout_of};
ghost use Rattle.nfs_model.specs.Tree as trees;
ghost use Rattle.nfs_values.specs.Call.{call_of};
ghost use Rattle.nfs_values.specs.Caller.{caller_of};
ghost use Rattle.nfs_values.specs.Handle.{named_of};
ghost use Rattle.nfs_values.specs.Moment.{moment_of};
ghost use Rattle.nfs_values.specs.declared.call.Call.TheVariants as calls;
ghost use Rattle.filer_state.specs.state.Lenses.{logical_lens};
ghost use Rattle.filer_state.specs.state.Promises.{HasVolume};
ghost use Rattle.nfs_values.specs.declared.answer.Answer.TheVariants as answers;
ghost use Rattle.parcels.specs.Filled.{logical_alike};
ghost use Rattle.filer_state.specs.state.Running.{RunsOn, UnlessReplied};
ghost use Rattle.filer_state.specs.state.Sets.{logical_before, logical_after};
ghost use Rattle.service.specs.renames.NamePromises.{linking_outcome, making_outcome};
ghost use Rattle.service.specs.renames.Promises.{renaming_outcome};
ghost use Rattle.service.specs.Running.{allowed_named, outcome_of};

use crate::named::fileid_of;
use crate::outcome::{Outcome, outcome_written};
use crate::renames::{EntryName, rename};
use crate::task::Run;
use affinity::Layout;
use filer_state::Files;
use nfs_values::answer::{LinkResults, MakeResults, RenameResults};
use nfs_values::{
    Answer, BytesToWrite, CreateMode, FileHandle, FileKind, Moment, Name, Named, Reply,
    SetAttributes, Status, Target,
};
use parcels::LogicalHeld;
use service_data::write_in_logical;
use service_names::creating::{create, make_device, make_directory, make_symbolic_link};
use service_names::linking::make_link;
use service_names::look_ahead;
use service_names::refusing::{
    creating_refusal, linking_refusal, making_refusal, node_refusal, removing_refusal,
    renaming_refusal, setting_refusal,
};
use service_names::removing::{remove, remove_directory};
use service_names::setting::set_attributes;
use std::alloc::AllocError;

/// Runs a SETATTR.
#[inline(never)]
pub(crate) fn set_attributes_here(
    run: Run,
    held: &mut LogicalHeld<Files>,
    named: Named,
    handle: &FileHandle,
    set: &SetAttributes,
    guard: Option<Moment>,
) -> Outcome
    requires whole { HasVolume named.volume.0 logical_lens [] (logical_before held.old) }
    ensures runs { (layout : trees.Layout) → RunsOn named.volume.0 logical_lens
        (allowed_named layout (named_of named) (caller_of run.entry.caller.now)
        (moment_of run.entry.moment) (call_of (calls.SetAttributes handle.now set.now guard)))
        (logical_before held.old) (outcome_of result) (logical_after held.old held.new) }
    ensures moved { UnlessReplied (outcome_of result) (held.new ≡ held.old) }
    ensures alike { logical_alike held.old held.new }
{
    let Named { volume, fileid } = named;
    if let Some(status) = setting_refusal(held, fileid, set, run.caller) {
        return Outcome::Replied(Reply::Success(Answer::SetAttributes(Err(status))));
    }
    let told = set_attributes(held, volume, fileid, set, guard, run.caller, run.moment);
    Outcome::Replied(Reply::Success(Answer::SetAttributes(told)))
}

/// Runs a WRITE.
#[inline(never)]
pub(crate) fn write_here(
    run: Run,
    held: &mut LogicalHeld<Files>,
    named: Named,
    handle: &FileHandle,
    offset: u64,
    count: u32,
    bytes: &BytesToWrite,
) -> Outcome
    requires whole { HasVolume named.volume.0 logical_lens [] (logical_before held.old) }
    ensures runs { (layout : trees.Layout) → RunsOn named.volume.0 logical_lens
        (allowed_named layout (named_of named) (caller_of run.entry.caller.now)
        (moment_of run.entry.moment) (call_of (calls.Write handle.now offset count bytes.now)))
        (logical_before held.old) (outcome_of result) (logical_after held.old held.new) }
    ensures moved { UnlessReplied (outcome_of result) (held.new ≡ held.old) }
    ensures alike { logical_alike held.old held.new }
{
    let Named { volume, fileid } = named;
    let written = bytes.as_slice();
    let caller = run.caller;
    let told = write_in_logical(held, caller, fileid, offset, count, written, run.moment);
    outcome_written(volume, told)
}

/// Runs a CREATE.
#[inline(never)]
pub(crate) fn create_here(
    run: Run,
    held: &mut LogicalHeld<Files>,
    named: Named,
    target: &Target,
    mode: &CreateMode,
) -> Outcome
    requires whole { HasVolume named.volume.0 logical_lens [] (logical_before held.old) }
    ensures runs { (layout : trees.Layout) → RunsOn named.volume.0 logical_lens
        (allowed_named layout (named_of named) (caller_of run.entry.caller.now)
        (moment_of run.entry.moment) (call_of (calls.Create target.now mode.now)))
        (logical_before held.old) (outcome_of result) (logical_after held.old held.new) }
    ensures moved { UnlessReplied (outcome_of result) (held.new ≡ held.old) }
    ensures alike { logical_alike held.old held.new }
{
    look_ahead(run.ahead, held, named, target);
    let Named { volume, fileid } = named;
    let name = target.name.as_bytes();
    let caller = run.caller;
    if let Some(status) = creating_refusal(held, fileid, name, mode, caller) {
        return Outcome::Replied(Reply::Success(Answer::Create(Err(status))));
    }
    outcome_created(create(
        run.alloc, held, volume, fileid, name, mode, caller, run.moment,
    ))
}

/// Runs a MKDIR.
#[inline(never)]
pub(crate) fn make_directory_here(
    run: Run,
    held: &mut LogicalHeld<Files>,
    named: Named,
    target: &Target,
    set: &SetAttributes,
) -> Outcome
    requires whole { HasVolume named.volume.0 logical_lens [] (logical_before held.old) }
    ensures runs { (layout : trees.Layout) → RunsOn named.volume.0 logical_lens
        (allowed_named layout (named_of named) (caller_of run.entry.caller.now)
        (moment_of run.entry.moment) (call_of (calls.MakeDirectory target.now set.now)))
        (logical_before held.old) (outcome_of result) (logical_after held.old held.new) }
    ensures moved { UnlessReplied (outcome_of result) (held.new ≡ held.old) }
    ensures alike { logical_alike held.old held.new }
{
    let Named { volume, fileid } = named;
    let name = target.name.as_bytes();
    let caller = run.caller;
    if let Some(status) = making_refusal(held, fileid, name, caller) {
        return Outcome::Replied(Reply::Success(Answer::MakeDirectory(Err(status))));
    }
    let made = make_directory(
        run.alloc, held, volume, fileid, name, set, caller, run.moment,
    );
    outcome_directory_made(made)
}

/// Runs a SYMLINK.
#[inline(never)]
pub(crate) fn make_symbolic_link_here(
    run: Run,
    held: &mut LogicalHeld<Files>,
    named: Named,
    target: &Target,
    set: &SetAttributes,
    text: &Name,
) -> Outcome
    requires whole { HasVolume named.volume.0 logical_lens [] (logical_before held.old) }
    ensures runs { (layout : trees.Layout) → RunsOn named.volume.0 logical_lens
        (allowed_named layout (named_of named) (caller_of run.entry.caller.now)
        (moment_of run.entry.moment)
        (call_of (calls.MakeSymbolicLink target.now set.now text.now)))
        (logical_before held.old) (outcome_of result) (logical_after held.old held.new) }
    ensures moved { UnlessReplied (outcome_of result) (held.new ≡ held.old) }
    ensures alike { logical_alike held.old held.new }
{
    let Named { volume, fileid } = named;
    let name = target.name.as_bytes();
    let text = text.as_bytes();
    let caller = run.caller;
    if let Some(status) = making_refusal(held, fileid, name, caller) {
        return Outcome::Replied(Reply::Success(Answer::MakeSymbolicLink(Err(status))));
    }
    outcome_link_made(make_symbolic_link(
        run.alloc, held, volume, fileid, name, set, text, caller, run.moment,
    ))
}

/// Runs a MKNOD.
#[inline(never)]
pub(crate) fn make_device_here(
    run: Run,
    held: &mut LogicalHeld<Files>,
    named: Named,
    target: &Target,
    kind: FileKind,
    set: &SetAttributes,
) -> Outcome
    requires whole { HasVolume named.volume.0 logical_lens [] (logical_before held.old) }
    ensures runs { (layout : trees.Layout) → RunsOn named.volume.0 logical_lens
        (allowed_named layout (named_of named) (caller_of run.entry.caller.now)
        (moment_of run.entry.moment) (call_of (calls.MakeDevice target.now kind set.now)))
        (logical_before held.old) (outcome_of result) (logical_after held.old held.new) }
    ensures moved { UnlessReplied (outcome_of result) (held.new ≡ held.old) }
    ensures alike { logical_alike held.old held.new }
{
    let Named { volume, fileid } = named;
    let name = target.name.as_bytes();
    let caller = run.caller;
    if let Some(status) = node_refusal(held, fileid, name, kind, caller) {
        return Outcome::Replied(Reply::Success(Answer::MakeDevice(Err(status))));
    }
    outcome_device_made(make_device(
        run.alloc, held, volume, fileid, name, kind, set, caller, run.moment,
    ))
}

/// Runs a REMOVE.
#[inline(never)]
pub(crate) fn remove_here(
    run: Run,
    held: &mut LogicalHeld<Files>,
    named: Named,
    target: &Target,
) -> Outcome
    requires whole { HasVolume named.volume.0 logical_lens [] (logical_before held.old) }
    ensures runs { (layout : trees.Layout) → RunsOn named.volume.0 logical_lens
        (allowed_named layout (named_of named) (caller_of run.entry.caller.now)
        (moment_of run.entry.moment) (call_of (calls.Remove target.now)))
        (logical_before held.old) (outcome_of result) (logical_after held.old held.new) }
    ensures moved { UnlessReplied (outcome_of result) (held.new ≡ held.old) }
    ensures alike { logical_alike held.old held.new }
{
    look_ahead(run.ahead, held, named, target);
    let Named { volume, fileid } = named;
    let name = target.name.as_bytes();
    if let Some(status) = removing_refusal(held, fileid, name, run.caller) {
        return Outcome::Replied(Reply::Success(Answer::Remove(Err(status))));
    }
    let told = remove(held, volume, fileid, name, run.moment);
    Outcome::Replied(Reply::Success(Answer::Remove(told)))
}

/// Runs a RMDIR.
#[inline(never)]
pub(crate) fn remove_directory_here(
    run: Run,
    held: &mut LogicalHeld<Files>,
    named: Named,
    target: &Target,
) -> Outcome
    requires whole { HasVolume named.volume.0 logical_lens [] (logical_before held.old) }
    ensures runs { (layout : trees.Layout) → RunsOn named.volume.0 logical_lens
        (allowed_named layout (named_of named) (caller_of run.entry.caller.now)
        (moment_of run.entry.moment) (call_of (calls.RemoveDirectory target.now)))
        (logical_before held.old) (outcome_of result) (logical_after held.old held.new) }
    ensures moved { UnlessReplied (outcome_of result) (held.new ≡ held.old) }
    ensures alike { logical_alike held.old held.new }
{
    let Named { volume, fileid } = named;
    let name = target.name.as_bytes();
    if let Some(status) = removing_refusal(held, fileid, name, run.caller) {
        return Outcome::Replied(Reply::Success(Answer::RemoveDirectory(Err(status))));
    }
    let told = remove_directory(held, volume, fileid, name, run.moment);
    Outcome::Replied(Reply::Success(Answer::RemoveDirectory(told)))
}

/// Runs a RENAME, whose first handle names this.
#[inline(never)]
pub(crate) fn rename_here(
    run: Run,
    layout: &Layout,
    held: &mut LogicalHeld<Files>,
    named: Named,
    from: &Target,
    to: &Target,
) -> Outcome
    requires home { home (layout_of layout.now) (call_of (calls.Rename from.now to.now))
        ≡ Some (trees.Logical named.volume.0) }
    requires whole { HasVolume named.volume.0 logical_lens [] (logical_before held.old) }
    ensures runs { RunsOn named.volume.0 logical_lens
        (allowed_named (layout_of layout.now) (named_of named) (caller_of run.entry.caller.now)
        (moment_of run.entry.moment) (call_of (calls.Rename from.now to.now)))
        (logical_before held.old) (outcome_of result) (logical_after held.old held.new) }
    ensures moved { UnlessReplied (outcome_of result) (held.new ≡ held.old) }
    ensures alike { logical_alike held.old held.new }
{
    let Named { volume, fileid } = named;
    let other = fileid_of(&to.directory, layout);
    let (from, to) = (from.name.as_bytes(), to.name.as_bytes());
    if let Some(status) = renaming_refusal(held, fileid, from, other, to, run.caller) {
        return Outcome::Replied(Reply::Success(Answer::Rename(Err(status))));
    }
    let from = EntryName {
        directory: fileid,
        name: from,
    };
    let to = EntryName {
        directory: other,
        name: to,
    };
    outcome_renamed(rename(run.alloc, held, volume, from, to, run.moment))
}

/// Runs a LINK, whose first handle names this.
#[inline(never)]
pub(crate) fn make_link_here(
    run: Run,
    layout: &Layout,
    held: &mut LogicalHeld<Files>,
    named: Named,
    handle: &FileHandle,
    target: &Target,
) -> Outcome
    requires whole { HasVolume named.volume.0 logical_lens [] (logical_before held.old) }
    ensures runs { RunsOn named.volume.0 logical_lens
        (allowed_named (layout_of layout.now) (named_of named) (caller_of run.entry.caller.now)
        (moment_of run.entry.moment) (call_of (calls.MakeLink handle.now target.now)))
        (logical_before held.old) (outcome_of result) (logical_after held.old held.new) }
    ensures moved { UnlessReplied (outcome_of result) (held.new ≡ held.old) }
    ensures alike { logical_alike held.old held.new }
{
    let Named { volume, fileid } = named;
    let directory = fileid_of(&target.directory, layout);
    let name = target.name.as_bytes();
    if let Some(status) = linking_refusal(held, fileid, directory, name, run.caller) {
        return Outcome::Replied(Reply::Success(Answer::MakeLink(Err(status))));
    }
    outcome_linked(make_link(run.alloc, held, volume, fileid, directory, name, run.moment))
}

/// What a CREATE comes to.
fn outcome_created(made: Result<Result<MakeResults, Status>, AllocError>) -> Outcome
    ensures { outcome_of result ≡ making_outcome answers.Create made }
{
    match made {
        Ok(told) => Outcome::Replied(Reply::Success(Answer::Create(told))),
        Err(AllocError) => Outcome::Starved,
    }
}

/// What a MKDIR comes to.
fn outcome_directory_made(made: Result<Result<MakeResults, Status>, AllocError>) -> Outcome
    ensures { outcome_of result ≡ making_outcome answers.MakeDirectory made }
{
    match made {
        Ok(told) => Outcome::Replied(Reply::Success(Answer::MakeDirectory(told))),
        Err(AllocError) => Outcome::Starved,
    }
}

/// What a SYMLINK comes to.
fn outcome_link_made(made: Result<Result<MakeResults, Status>, AllocError>) -> Outcome
    ensures { outcome_of result ≡ making_outcome answers.MakeSymbolicLink made }
{
    match made {
        Ok(told) => Outcome::Replied(Reply::Success(Answer::MakeSymbolicLink(told))),
        Err(AllocError) => Outcome::Starved,
    }
}

/// What a MKNOD comes to.
fn outcome_device_made(made: Result<Result<MakeResults, Status>, AllocError>) -> Outcome
    ensures { outcome_of result ≡ making_outcome answers.MakeDevice made }
{
    match made {
        Ok(told) => Outcome::Replied(Reply::Success(Answer::MakeDevice(told))),
        Err(AllocError) => Outcome::Starved,
    }
}

/// What a LINK comes to.
fn outcome_linked(linked: Result<Result<LinkResults, Status>, AllocError>) -> Outcome
    ensures { outcome_of result ≡ linking_outcome linked }
{
    match linked {
        Ok(told) => Outcome::Replied(Reply::Success(Answer::MakeLink(told))),
        Err(AllocError) => Outcome::Starved,
    }
}

/// What a RENAME comes to.
fn outcome_renamed(renamed: Result<Result<RenameResults, Status>, AllocError>) -> Outcome
    ensures { outcome_of result ≡ renaming_outcome renamed }
{
    match renamed {
        Ok(told) => Outcome::Replied(Reply::Success(Answer::Rename(told))),
        Err(AllocError) => Outcome::Starved,
    }
}
