//! What follows from the definitions. The function does nothing: its contract is a theorem.

ghost use Rattle.filer_state.specs.names.Laws.{
  LookupIsRight,
  ReadlinkIsRight,
  ReadlinkMayStarve,
  ReaddirIsRight,
  ReaddirMayStarve,
  ReaddirplusIsRight,
  ReaddirplusMayStarve,
  CommitIsRight,
  AccessIsRight,
  FsinfoIsRight,
  PathconfIsRight,
  MountIsRight,
};

/// On every sound volume with the parcels that are held, LOOKUP, READLINK, READDIR, READDIRPLUS,
/// COMMIT, ACCESS, FSINFO, PATHCONF and a MNT below the root answer as the serial server does,
/// change nothing, and all stays sound. A READLINK that would tell a text, and a READDIR or
/// READDIRPLUS that would list, may find no memory.
pub fn name_calls_are_right()
    ensures lookup { LookupIsRight }
    ensures readlink { ReadlinkIsRight }
    ensures starved_link { ReadlinkMayStarve }
    ensures readdir { ReaddirIsRight }
    ensures starved { ReaddirMayStarve }
    ensures readdirplus { ReaddirplusIsRight }
    ensures starved_plus { ReaddirplusMayStarve }
    ensures commit { CommitIsRight }
    ensures access { AccessIsRight }
    ensures fsinfo { FsinfoIsRight }
    ensures pathconf { PathconfIsRight }
    ensures mount { MountIsRight }
{}
