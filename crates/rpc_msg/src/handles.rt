//! The handles of calls and replies, as they are spelled.

ghost use Rattle.std.specs.Prelude.{◌≡◌, map};
ghost use Rattle.std.specs.Option.{option_map};
ghost use Rattle.nfs_values.specs.Answer.{answer_of, entry_plus_of};
ghost use Rattle.nfs_values.specs.Call.{call_of};
ghost use Rattle.rpc_msg.specs.HandleForm.{heard_in_run, told_in_run};
ghost use Rattle.nfs_values.specs.Reply.{reply_of};
ghost use Rattle.rpc_msg.specs.Handles.{answer_with, call_heard, listed_with};
ghost use Rattle.rpc_msg.specs.Handles.{reply_told};

use crate::handle_form::{HandleForm, heard_in_run, told_in_run};
use nfs_values::answer::DirectoryEntryPlus;
use nfs_values::{Answer, Call, FileHandle, HandleMap, Reply};

/// Tells a handle in the run of this number.
fn tell_handle(handle: &mut FileHandle, run: u64)
    ensures { handle.new ≡ told_in_run run handle.old }
{
    *handle = told_in_run(handle, run);
}

/// Tells a handle, if there is one, in the run of this number.
fn tell_optional(handle: &mut Option<FileHandle>, run: u64)
    ensures { handle.new ≡ option_map (told_in_run run) handle.old }
{
    match handle {
        Some(handle) => tell_handle(handle, run),
        None => {}
    }
}

/// Hears handles in the run of this number.
#[derive(Drop)]
struct InRun(u64);

impl HandleMap for InRun {
    ghost made = { λ r. heard_in_run r.0 };

    fn made_of(&self, handle: &FileHandle) -> FileHandle {
        heard_in_run(handle, self.0)
    }
}

/// Makes of the handles of a call that came those that the server has.
pub(crate) fn hear(call: &mut Call, form: HandleForm)
    ensures { call_of call.new ≡ call_heard form (call_of call.old) }
{
    match form {
        HandleForm::Plain => {}
        HandleForm::OfRun(run) => call.map_handles(&InRun(run)),
    }
}

/// Tells the handles of entries in the run of this number.
fn tell_entries(entries: &mut [DirectoryEntryPlus], run: u64)
    ensures { map entry_plus_of entries.new
        ≡ map (listed_with (told_in_run run)) (map entry_plus_of entries.old) }
{
    for entry in entries.iter_mut() {
        tell_optional(&mut entry.handle, run);
    }
}

/// Tells the handles of results in the run of this number.
fn tell_in_run(answer: &mut Answer, run: u64)
    ensures { answer_of answer.new ≡ answer_with (told_in_run run) (answer_of answer.old) }
{
    match answer {
        Answer::Lookup(Ok(results)) => tell_handle(&mut results.handle, run),
        Answer::Create(Ok(results)) => tell_handle(&mut results.handle, run),
        Answer::MakeDirectory(Ok(results)) => tell_handle(&mut results.handle, run),
        Answer::MakeSymbolicLink(Ok(results)) => tell_handle(&mut results.handle, run),
        Answer::MakeDevice(Ok(results)) => tell_handle(&mut results.handle, run),
        Answer::ReadDirectoryPlus(Ok(results)) => tell_entries(&mut results.entries, run),
        Answer::Mount(Ok(results)) => tell_handle(&mut results.handle, run),
        _ => {}
    }
}

/// Makes of the handles of a reply of the server those that are told.
pub fn tell(reply: &mut Reply, form: HandleForm)
    ensures { reply_of reply.new ≡ reply_told form (reply_of reply.old) }
{
    match form {
        HandleForm::Plain => {}
        HandleForm::OfRun(run) => match reply {
            Reply::Success(answer) => tell_in_run(answer, run),
            Reply::Refused(_) => {}
        },
    }
}
