//! What follows from the definitions. The functions do nothing: their contracts are theorems.

ghost use Rattle.filer_state.specs.changes.Laws.{
  SetattrIsDone,
  CreateIsDone,
  MkdirIsDone,
  SymlinkIsDone,
  MknodIsDone,
  CreateMayStarve,
  MkdirMayStarve,
  SymlinkMayStarve,
  MknodMayStarve,
  RemoveIsDone,
  RmdirIsDone,
  RenameIsDone,
  RenameMayStarve,
  LinkIsDone,
  LinkMayStarve,
};

/// On every sound volume, SETATTR as it is told by what is under Volume Logical is the serial
/// server's: the answer, what is left, and where its blocks go.
pub fn setting_calls_are_right()
    ensures { SetattrIsDone }
{}

/// So are CREATE, MKDIR, SYMLINK and MKNOD, which may starve where they would make a node.
pub fn making_calls_are_right()
    ensures create { CreateIsDone }
    ensures mkdir { MkdirIsDone }
    ensures create_starves { CreateMayStarve }
    ensures mkdir_starves { MkdirMayStarve }
    ensures symlink { SymlinkIsDone }
    ensures symlink_starves { SymlinkMayStarve }
    ensures mknod { MknodIsDone }
    ensures mknod_starves { MknodMayStarve }
{}

/// So are REMOVE and RMDIR.
pub fn dropping_calls_are_right()
    ensures remove { RemoveIsDone }
    ensures rmdir { RmdirIsDone }
{}

/// So is RENAME, which may starve where the two names aren't of one node.
pub fn renaming_calls_are_right()
    ensures rename { RenameIsDone }
    ensures rename_starves { RenameMayStarve }
{}

/// So is LINK, which may starve where it would add a name.
pub fn linking_calls_are_right()
    ensures link { LinkIsDone }
    ensures link_starves { LinkMayStarve }
{}
