//! Calls under Volume Logical that change nothing, one by one. Each is a function that isn't
//! inlined, since all results that a function may have take room in it, and are set to zero.

ghost use Rattle.std.specs.Prelude.{◌≡◌, []};
ghost use Rattle.nfs_model.specs.Tree as trees;
ghost use Rattle.nfs_values.specs.Call.{call_of};
ghost use Rattle.nfs_values.specs.Caller.{caller_of};
ghost use Rattle.nfs_values.specs.Handle.{named_of};
ghost use Rattle.nfs_values.specs.Moment.{moment_of};
ghost use Rattle.nfs_values.specs.declared.call.Call.TheVariants as calls;
ghost use Rattle.filer_state.specs.state.Lenses.{logical_lens};
ghost use Rattle.filer_state.specs.state.Promises.{HasVolume};
ghost use Rattle.filer_state.specs.state.Running.{RunsOn};
ghost use Rattle.filer_state.specs.state.Sets.{logical_before};
ghost use Rattle.service.specs.renames.NamePromises.{
  listing_outcome,
  listing_plus_outcome,
  reading_link_outcome,
};
ghost use Rattle.service.specs.Running.{call_named, outcome_of};

use crate::attributes::get_attributes;
use crate::outcome::{Outcome, outcome_read};
use crate::task::Run;
use filer_state::Files;
use nfs_values::answer::{ReadDirectoryPlusResults, ReadDirectoryResults, ReadLinkResults};
use nfs_values::{Answer, FileHandle, Name, Named, Reply, Status, Target};
use parcels::LogicalHeld;
use service_data::read_in_logical;
use service_names::committing::{commit, committing_refusal};
use service_names::listing::{PageAsked, read_directory};
use service_names::listing_plus::{PagePlusAsked, read_directory_plus};
use service_names::look_ahead;
use service_names::looking::lookup;
use service_names::mounting_below::mount_below;
use service_names::reading_link::read_link;
use service_names::refusing::{listing_refusal, lookup_refusal};
use service_names::telling::{check_access, filesystem_info, path_configuration};
use std::alloc::AllocError;

/// Runs a GETATTR.
#[inline(never)]
pub(crate) fn get_attributes_here(
    run: Run,
    held: &LogicalHeld<Files>,
    named: Named,
    handle: &FileHandle,
) -> Outcome
    requires whole { HasVolume named.volume.0 logical_lens [] (logical_before held.now) }
    ensures { (layout : trees.Layout) → RunsOn named.volume.0 logical_lens
        (call_named layout (named_of named) (caller_of run.entry.caller.now)
        (moment_of run.entry.moment) (call_of (calls.GetAttributes handle.now)))
        (logical_before held.now) (outcome_of result) (logical_before held.now) }
{
    let told = get_attributes(held, named.volume, named.fileid);
    Outcome::Replied(Reply::Success(Answer::GetAttributes(told)))
}

/// Runs a LOOKUP.
#[inline(never)]
pub(crate) fn lookup_here(
    run: Run,
    held: &LogicalHeld<Files>,
    named: Named,
    target: &Target,
) -> Outcome
    requires whole { HasVolume named.volume.0 logical_lens [] (logical_before held.now) }
    ensures { (layout : trees.Layout) → RunsOn named.volume.0 logical_lens
        (call_named layout (named_of named) (caller_of run.entry.caller.now)
        (moment_of run.entry.moment) (call_of (calls.Lookup target.now)))
        (logical_before held.now) (outcome_of result) (logical_before held.now) }
{
    look_ahead(run.ahead, held, named, target);
    let Named { volume, fileid } = named;
    if let Some(status) = lookup_refusal(held, fileid, run.caller) {
        return Outcome::Replied(Reply::Success(Answer::Lookup(Err(status))));
    }
    let told = lookup(held, volume, fileid, target.name.as_bytes());
    Outcome::Replied(Reply::Success(Answer::Lookup(told)))
}

/// Runs an ACCESS.
#[inline(never)]
pub(crate) fn check_access_here(
    run: Run,
    held: &LogicalHeld<Files>,
    named: Named,
    handle: &FileHandle,
    asked: u32,
) -> Outcome
    requires whole { HasVolume named.volume.0 logical_lens [] (logical_before held.now) }
    ensures { (layout : trees.Layout) → RunsOn named.volume.0 logical_lens
        (call_named layout (named_of named) (caller_of run.entry.caller.now)
        (moment_of run.entry.moment) (call_of (calls.CheckAccess handle.now asked)))
        (logical_before held.now) (outcome_of result) (logical_before held.now) }
{
    let told = check_access(held, named.volume, named.fileid, asked, run.caller);
    Outcome::Replied(Reply::Success(Answer::CheckAccess(told)))
}

/// Runs a READLINK.
#[inline(never)]
pub(crate) fn read_link_here(
    run: Run,
    held: &LogicalHeld<Files>,
    named: Named,
    handle: &FileHandle,
) -> Outcome
    requires whole { HasVolume named.volume.0 logical_lens [] (logical_before held.now) }
    ensures { (layout : trees.Layout) → RunsOn named.volume.0 logical_lens
        (call_named layout (named_of named) (caller_of run.entry.caller.now)
        (moment_of run.entry.moment) (call_of (calls.ReadLink handle.now)))
        (logical_before held.now) (outcome_of result) (logical_before held.now) }
{
    outcome_link_read(read_link(run.alloc, held, named.volume, named.fileid))
}

/// Runs a READ.
#[inline(never)]
pub(crate) fn read_here(
    run: Run,
    held: &LogicalHeld<Files>,
    named: Named,
    handle: &FileHandle,
    offset: u64,
    count: u32,
) -> Outcome
    requires whole { HasVolume named.volume.0 logical_lens [] (logical_before held.now) }
    ensures { (layout : trees.Layout) → RunsOn named.volume.0 logical_lens
        (call_named layout (named_of named) (caller_of run.entry.caller.now)
        (moment_of run.entry.moment) (call_of (calls.Read handle.now offset count)))
        (logical_before held.now) (outcome_of result) (logical_before held.now) }
{
    let told = read_in_logical(run.alloc, held, run.caller, named.fileid, offset, count);
    outcome_read(told)
}

/// Runs a READDIR.
#[inline(never)]
pub(crate) fn read_directory_here(
    run: Run,
    held: &LogicalHeld<Files>,
    named: Named,
    directory: &FileHandle,
    asked: PageAsked,
) -> Outcome
    requires whole { HasVolume named.volume.0 logical_lens [] (logical_before held.now) }
    ensures { (layout : trees.Layout) → RunsOn named.volume.0 logical_lens
        (call_named layout (named_of named) (caller_of run.entry.caller.now)
        (moment_of run.entry.moment)
        (call_of (calls.ReadDirectory directory.now asked.cookie asked.verifier asked.count)))
        (logical_before held.now) (outcome_of result) (logical_before held.now) }
{
    let Named { volume, fileid } = named;
    if let Some(status) = listing_refusal(held, fileid, run.caller) {
        return Outcome::Replied(Reply::Success(Answer::ReadDirectory(Err(status))));
    }
    outcome_listed(read_directory(run.alloc, held, volume, fileid, asked))
}

/// Runs a READDIRPLUS.
#[inline(never)]
pub(crate) fn read_directory_plus_here(
    run: Run,
    held: &LogicalHeld<Files>,
    named: Named,
    directory: &FileHandle,
    asked: PagePlusAsked,
) -> Outcome
    requires whole { HasVolume named.volume.0 logical_lens [] (logical_before held.now) }
    ensures { (layout : trees.Layout) → RunsOn named.volume.0 logical_lens
        (call_named layout (named_of named) (caller_of run.entry.caller.now)
        (moment_of run.entry.moment) (call_of (calls.ReadDirectoryPlus directory.now asked.cookie
        asked.verifier asked.names_count asked.count)))
        (logical_before held.now) (outcome_of result) (logical_before held.now) }
{
    let Named { volume, fileid } = named;
    if let Some(status) = listing_refusal(held, fileid, run.caller) {
        return Outcome::Replied(Reply::Success(Answer::ReadDirectoryPlus(Err(status))));
    }
    let listed = read_directory_plus(run.alloc, held, volume, fileid, asked, run.caller);
    outcome_listed_plus(listed)
}

/// Runs a FSINFO.
#[inline(never)]
pub(crate) fn filesystem_info_here(
    run: Run,
    held: &LogicalHeld<Files>,
    named: Named,
    handle: &FileHandle,
) -> Outcome
    requires whole { HasVolume named.volume.0 logical_lens [] (logical_before held.now) }
    ensures { (layout : trees.Layout) → RunsOn named.volume.0 logical_lens
        (call_named layout (named_of named) (caller_of run.entry.caller.now)
        (moment_of run.entry.moment) (call_of (calls.FilesystemInfo handle.now)))
        (logical_before held.now) (outcome_of result) (logical_before held.now) }
{
    let told = filesystem_info(held, named.volume, named.fileid);
    Outcome::Replied(Reply::Success(Answer::FilesystemInfo(told)))
}

/// Runs a PATHCONF.
#[inline(never)]
pub(crate) fn path_configuration_here(
    run: Run,
    held: &LogicalHeld<Files>,
    named: Named,
    handle: &FileHandle,
) -> Outcome
    requires whole { HasVolume named.volume.0 logical_lens [] (logical_before held.now) }
    ensures { (layout : trees.Layout) → RunsOn named.volume.0 logical_lens
        (call_named layout (named_of named) (caller_of run.entry.caller.now)
        (moment_of run.entry.moment) (call_of (calls.PathConfiguration handle.now)))
        (logical_before held.now) (outcome_of result) (logical_before held.now) }
{
    let told = path_configuration(held, named.volume, named.fileid, run.caller);
    Outcome::Replied(Reply::Success(Answer::PathConfiguration(told)))
}

/// Runs a COMMIT.
#[inline(never)]
pub(crate) fn commit_here(
    run: Run,
    held: &LogicalHeld<Files>,
    named: Named,
    handle: &FileHandle,
) -> Outcome
    requires whole { HasVolume named.volume.0 logical_lens [] (logical_before held.now) }
    ensures { (layout : trees.Layout) → RunsOn named.volume.0 logical_lens
        (call_named layout (named_of named) (caller_of run.entry.caller.now)
        (moment_of run.entry.moment) (call_of (calls.Commit handle.now)))
        (logical_before held.now) (outcome_of result) (logical_before held.now) }
{
    let Named { volume, fileid } = named;
    if let Some(status) = committing_refusal(held, fileid, run.caller) {
        return Outcome::Replied(Reply::Success(Answer::Commit(Err(status))));
    }
    let told = commit(held, volume, fileid);
    Outcome::Replied(Reply::Success(Answer::Commit(told)))
}

/// Runs a MNT of a directory below a root.
#[inline(never)]
pub(crate) fn mount_below_here(
    run: Run,
    held: &LogicalHeld<Files>,
    named: Named,
    root: &FileHandle,
    path: &Name,
) -> Outcome
    requires whole { HasVolume named.volume.0 logical_lens [] (logical_before held.now) }
    ensures { (layout : trees.Layout) → RunsOn named.volume.0 logical_lens
        (call_named layout (named_of named) (caller_of run.entry.caller.now)
        (moment_of run.entry.moment) (call_of (calls.MountBelow root.now path.now)))
        (logical_before held.now) (outcome_of result) (logical_before held.now) }
{
    let Named { volume, fileid } = named;
    let told = mount_below(held, volume, fileid, path.as_bytes(), run.caller);
    Outcome::Replied(Reply::Success(Answer::Mount(told)))
}

/// What a READLINK comes to.
fn outcome_link_read(read: Result<Result<ReadLinkResults, Status>, AllocError>) -> Outcome
    ensures { outcome_of result ≡ reading_link_outcome read }
{
    match read {
        Ok(told) => Outcome::Replied(Reply::Success(Answer::ReadLink(told))),
        Err(AllocError) => Outcome::Starved,
    }
}

/// What a READDIR comes to.
fn outcome_listed(listed: Result<Result<ReadDirectoryResults, Status>, AllocError>) -> Outcome
    ensures { outcome_of result ≡ listing_outcome listed }
{
    match listed {
        Ok(told) => Outcome::Replied(Reply::Success(Answer::ReadDirectory(told))),
        Err(AllocError) => Outcome::Starved,
    }
}

/// What a READDIRPLUS comes to.
fn outcome_listed_plus(
    listed: Result<Result<ReadDirectoryPlusResults, Status>, AllocError>,
) -> Outcome
    ensures { outcome_of result ≡ listing_plus_outcome listed }
{
    match listed {
        Ok(told) => Outcome::Replied(Reply::Success(Answer::ReadDirectoryPlus(told))),
        Err(AllocError) => Outcome::Starved,
    }
}
