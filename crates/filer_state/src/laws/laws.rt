//! What follows from the definitions. The functions do nothing: their contracts are theorems.

ghost use Rattle.filer_state.specs.laws.Laws.{PartsPartition, UsedFits, SubdirectoriesFit};
ghost use Rattle.filer_state.specs.laws.Laws.{OpensSound, OpensAsServer, OpensFree};
ghost use Rattle.filer_state.specs.laws.Laws.{StepsAreLocal, StepsKeep, StepsCommute};
ghost use Rattle.filer_state.specs.laws.Laws.{HistoriesReplay, HistoriesKeepSizes};
ghost use Rattle.filer_state.specs.laws.Laws.{LayoutsAgree, SoundByWeight};
ghost use Rattle.filer_state.specs.laws.Laws.{StripesAreSeen, RangesAreSeen, VbnsAreSeen};
ghost use Rattle.filer_state.specs.laws.Laws.{LogicalsAreSeen, VolumesAreSeen};
ghost use Rattle.filer_state.specs.laws.Laws.{AggregatesAreSeen, RootsAreSeen};
ghost use Rattle.filer_state.specs.laws.Laws.{StripesAreKnown, RangesAreKnown, VbnsAreKnown};
ghost use Rattle.filer_state.specs.laws.Laws.{LogicalsAreKnown, VolumesAreKnown};
ghost use Rattle.filer_state.specs.laws.Laws.{AggregatesAreKnown, RootsAreKnown};
ghost use Rattle.filer_state.specs.laws.Laws.{RangesAreSized, LogicalsAreSized};
ghost use Rattle.filer_state.specs.laws.Laws.{StripeMakesStep, RangeMakesStep, VbnMakesStep};
ghost use Rattle.filer_state.specs.laws.Laws.{LogicalMakesStep, VolumeMakesStep};
ghost use Rattle.filer_state.specs.laws.Laws.{AggregateMakesStep, SerialMakesStep};
ghost use Rattle.filer_state.specs.laws.Laws.{ServesAll, InnerDoesAll};

/// The parcels as a run begins are sound, with no hands and no entries, and stand for the server
/// as it begins, with all block numbers below total free.
pub fn begins_sound<P>()
    ensures sound { OpensSound P }
    ensures server { OpensAsServer P }
    ensures free { OpensFree P }
{}

/// A filer's steps are a machine's, and steps at nodes that don't exclude each other commute.
pub fn steps_are_lawful<P>()
    ensures local { StepsAreLocal P }
    ensures keeps { StepsKeep P }
    ensures commute { StepsCommute P }
{}

/// The parcels that a legal history leaves stand for the serial server after its finished calls,
/// and the replies to them are the serial server's.
pub fn histories_replay<P>()
    ensures { HistoriesReplay P }
{}

/// Where the parcels began as a run does, a legal history leaves each volume's ranges with as many
/// blocks as the layout says.
pub fn histories_keep_sizes<P>()
    ensures { HistoriesKeepSizes P }
{}

/// Which of two layouts of one tree is taken changes nothing, nor does the order of hands.
pub fn layouts_agree<P>()
    ensures stored { LayoutsAgree P }
    ensures weight { SoundByWeight P }
{}

/// The block parts of a sound volume partition it.
pub fn parts_partition()
    ensures { PartsPartition }
{}

/// Counts of a sound volume have limits: used blocks, and subdirectories of a directory.
pub fn counts_fit()
    ensures used { UsedFits }
    ensures subdirectories { SubdirectoriesFit }
{}

/// The parcels of a typed set are a part of what is stored: they show it, and change just it.
pub fn sets_are_seen<P>()
    ensures stripe { StripesAreSeen P }
    ensures range { RangesAreSeen P }
    ensures vbn { VbnsAreSeen P }
    ensures logical { LogicalsAreSeen P }
    ensures volume { VolumesAreSeen P }
    ensures aggregate { AggregatesAreSeen P }
    ensures serial { RootsAreSeen P }
{}

/// The parcels that a call is granted of a sound filer are a part of some sound whole.
pub fn grants_are_known<P>()
    ensures stripe { StripesAreKnown P }
    ensures range { RangesAreKnown P }
    ensures vbn { VbnsAreKnown P }
    ensures logical { LogicalsAreKnown P }
    ensures volume { VolumesAreKnown P }
    ensures aggregate { AggregatesAreKnown P }
    ensures serial { RootsAreKnown P }
{}

/// Where each volume's ranges have as many blocks as the layout says, so has what a call is
/// granted.
pub fn grants_are_sized<P>()
    ensures range { RangesAreSized P }
    ensures logical { LogicalsAreSized P }
{}

/// Where a handler's change of a typed set is right, putting in the set's parcels is a step of the
/// filer.
pub fn handlers_make_steps<P>()
    ensures stripe { StripeMakesStep P }
    ensures range { RangeMakesStep P }
    ensures vbn { VbnMakesStep P }
    ensures logical { LogicalMakesStep P }
    ensures volume { VolumeMakesStep P }
    ensures aggregate { AggregateMakesStep P }
    ensures serial { SerialMakesStep P }
{}

/// What is done on one volume is done on all that is stored.
pub fn volumes_tell_all()
    ensures serves { ServesAll }
    ensures inner { InnerDoesAll }
{}
