//! What follows from the definitions. The functions do nothing: their contracts are theorems.

ghost use Rattle.filer_state.specs.totals.Laws.{GrowIsRight};
ghost use Rattle.filer_state.specs.totals.FilesystemStatusLaws.{FsstatIsRight};
ghost use Rattle.filer_state.specs.totals.CensusLaws.{CensusIsRight, CensusMayStarve};

/// Whatever the rest of what is stored is, GROW as it is told by what is under the volume's
/// Aggregate is the serial server's: its answer, the server after it, and the new block numbers,
/// which are free. All stays sound.
pub fn growing_calls_are_right()
    ensures right { GrowIsRight }
{}

/// On every sound volume with the parcels that are held, FSSTAT as it is told by what is under
/// Volume is the serial server's, changes nothing, and all stays sound.
pub fn filesystem_status_is_right()
    ensures in_volume { FsstatIsRight }
{}

/// Where all that is stored is sound, so is CENSUS as it is told by the counts of the volumes. It
/// may find no memory.
pub fn census_is_right()
    ensures told { CensusIsRight }
    ensures starves { CensusMayStarve }
{}
