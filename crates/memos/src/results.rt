//! Results that are remembered.

ghost use Rattle.std.specs.Prelude.{◌≡◌, is_some};
ghost use Rattle.nfs_model.specs.Memo.{ToldGone, ToldMade};
ghost use Rattle.nfs_model.specs.Types.{GoneDone};
ghost use Rattle.nfs_model.specs.Serial.Once.{answer_told, told_of};
ghost use Rattle.nfs_values.specs.Answer.{
  answer_of,
  attributes_set,
  link_made,
  name_gone,
  name_moved,
  node_made,
  procedure_of,
  result_of,
};
ghost use Rattle.nfs_values.specs.Attributes.{change_of, shown_of};
ghost use Rattle.nfs_values.specs.Call.{call_of};
ghost use Rattle.memos.specs.Kept.{Keeps, told_kept};
ghost use Rattle.memos.specs.Told.{procedure_told};

use nfs_values::answer::{LinkResults, MakeResults, RenameResults};
use nfs_values::{
    Answer, Attributes, Call, Change, FileHandle, FileKind, Fileid, Moment, Named, PriorAttributes,
    Status, VolumeNumber,
};
use std::marker::Model;

/// The results of a call that succeeded (RFC 1813 section 3.3). The handle of what was made follows
/// from its attributes.
#[derive(Clone, Copy)]
pub(crate) enum Results {
    Set(Change),
    Made {
        object: Attributes,
        directory: Change,
    },
    /// The directory.
    Gone(Change),
    /// The directories.
    Renamed {
        from: Change,
        to: Change,
    },
    Linked {
        object: Attributes,
        directory: Change,
    },
}

/// Attributes of nothing.
const NO_ATTRIBUTES: Attributes = Attributes {
    kind: FileKind::Regular,
    mode: 0,
    links: 0,
    uid: 0,
    gid: 0,
    size: 0,
    used: 0,
    fsid: 0,
    fileid: Fileid(0),
    atime: Moment::START,
    mtime: Moment::START,
    ctime: Moment::START,
};

/// Attributes before and after a call on nothing.
const NO_CHANGE: Change = Change {
    before: PriorAttributes {
        size: 0,
        mtime: Moment::START,
        ctime: Moment::START,
    },
    after: NO_ATTRIBUTES,
};

impl Results {
    /// What stands where none are kept.
    pub(crate) const EMPTY: Results = Results::Set(NO_CHANGE);
}

/// Whether an answer is to be kept.
pub(crate) fn is_kept(answer: &Answer) -> bool
    ensures { result ≡ is_some (told_of (answer_of answer.now)) }
{
    match answer {
        Answer::SetAttributes(results) => results.is_ok(),
        Answer::Create(results) => results.is_ok(),
        Answer::MakeDirectory(results) => results.is_ok(),
        Answer::MakeSymbolicLink(results) => results.is_ok(),
        Answer::MakeDevice(results) => results.is_ok(),
        Answer::Remove(results) => results.is_ok(),
        Answer::RemoveDirectory(results) => results.is_ok(),
        Answer::Rename(results) => results.is_ok(),
        Answer::MakeLink(results) => results.is_ok(),
        _ => false,
    }
}

// Each is put where it stays, since results are large.
impl Results {
    /// Keeps what is to be kept of an answer.
    pub(crate) fn put(&mut self, answer: &Answer)
        ensures { Keeps (told_of (answer_of answer.now)) (told_kept self.new) }
    {
        match answer {
            Answer::SetAttributes(results) => self.put_set(results),
            Answer::Create(results) => self.put_made(results),
            Answer::MakeDirectory(results) => self.put_made(results),
            Answer::MakeSymbolicLink(results) => self.put_made(results),
            Answer::MakeDevice(results) => self.put_made(results),
            Answer::Remove(results) => self.put_gone(results),
            Answer::RemoveDirectory(results) => self.put_gone(results),
            Answer::Rename(results) => self.put_renamed(results),
            Answer::MakeLink(results) => self.put_linked(results),
            _ => {}
        }
    }

    /// Keeps those of a SETATTR.
    fn put_set(&mut self, results: &Result<Change, Status>)
        ensures { Keeps (told_of (result_of attributes_set 2 results.now)) (told_kept self.new) }
    {
        if let Ok(change) = results {
            *self = Results::Set(*change);
        }
    }

    /// Keeps those of a CREATE, MKDIR, SYMLINK or MKNOD.
    fn put_made(&mut self, results: &Result<MakeResults, Status>)
        ensures { Keeps (told_of (result_of node_made 2 results.now)) (told_kept self.new) }
    {
        if let Ok(made) = results {
            *self = Results::Made {
                object: made.object,
                directory: made.directory,
            };
        }
    }

    /// Keeps those of a REMOVE or RMDIR.
    fn put_gone(&mut self, results: &Result<Change, Status>)
        ensures { Keeps (told_of (result_of name_gone 2 results.now)) (told_kept self.new) }
    {
        if let Ok(directory) = results {
            *self = Results::Gone(*directory);
        }
    }

    /// Keeps those of a RENAME.
    fn put_renamed(&mut self, results: &Result<RenameResults, Status>)
        ensures { Keeps (told_of (result_of name_moved 4 results.now)) (told_kept self.new) }
    {
        if let Ok(moved) = results {
            *self = Results::Renamed {
                from: moved.from,
                to: moved.to,
            };
        }
    }

    /// Keeps those of a LINK.
    fn put_linked(&mut self, results: &Result<LinkResults, Status>)
        ensures { Keeps (told_of (result_of link_made 3 results.now)) (told_kept self.new) }
    {
        if let Ok(made) = results {
            *self = Results::Linked {
                object: made.object,
                directory: made.directory,
            };
        }
    }
}

/// The results that a call was told, where they are kept.
#[derive(Drop)]
pub struct Remembered<'a> {
    results: &'a Results,
}

impl<'a> Model for Remembered<'a> {
    ghost use Rattle.nfs_model.specs.Memo.{Told};
    ghost use Rattle.nfs_model.specs.volume.Codes.{coded_told};
    ghost use Rattle.memos.specs.Kept.{Keeps, told_kept};

    ghost Value = { Told };

    ghost coded = { coded_told };

    ghost view = { λ r. told_kept r.results.now };
}

impl<'a> Remembered<'a> {
    /// These.
    pub(crate) fn new(results: &'a Results) -> Remembered<'a>
        ensures { result ≡ told_kept results.now }
    {
        Remembered { results }
    }

    /// The answer to the call that tells them again, of a volume of this number.
    #[inline(never)]
    pub fn answer(&self, call: &Call, volume: VolumeNumber) -> Answer
        ensures told { answer_of result ≡ answer_told volume.0 self.now }
        ensures procedure { procedure_of result ≡ procedure_told (call_of call.now) self.now }
    {
        match self.results {
            Results::Set(change) => Answer::SetAttributes(Ok(*change)),
            Results::Made { object, directory } => made_again(object, directory, call, volume),
            Results::Gone(directory) => gone_again(directory, call),
            Results::Renamed { from, to } => Answer::Rename(Ok(RenameResults {
                from: *from,
                to: *to,
            })),
            Results::Linked { object, directory } => Answer::MakeLink(Ok(LinkResults {
                object: *object,
                directory: *directory,
            })),
        }
    }
}

/// The answer to a call that made this.
fn made_again(object: &Attributes, directory: &Change, call: &Call, volume: VolumeNumber) -> Answer
    ensures told { answer_of result
        ≡ answer_told volume.0 (ToldMade (shown_of object.now) (change_of directory.now)) }
    ensures procedure { procedure_of result ≡ procedure_told (call_of call.now)
        (ToldMade (shown_of object.now) (change_of directory.now)) }
{
    let fileid = object.fileid;
    let made = MakeResults {
        handle: FileHandle::naming(Named { volume, fileid }),
        object: *object,
        directory: *directory,
    };
    match call {
        Call::MakeDirectory { .. } => Answer::MakeDirectory(Ok(made)),
        Call::MakeSymbolicLink { .. } => Answer::MakeSymbolicLink(Ok(made)),
        Call::MakeDevice { .. } => Answer::MakeDevice(Ok(made)),
        _ => Answer::Create(Ok(made)),
    }
}

/// The answer to a call that removed a name of this directory.
fn gone_again(directory: &Change, call: &Call) -> Answer
    ensures told { answer_of result ≡ GoneDone (change_of directory.now) }
    ensures procedure { procedure_of result
        ≡ procedure_told (call_of call.now) (ToldGone (change_of directory.now)) }
{
    match call {
        Call::RemoveDirectory(_) => Answer::RemoveDirectory(Ok(*directory)),
        _ => Answer::Remove(Ok(*directory)),
    }
}
