//! What follows from the definitions. The functions do nothing: their contracts are theorems.

ghost use Rattle.filer_state.specs.nodes.Laws.{
  NodesAreMade,
  NodesAreDropped,
  FilesAreSized,
  NodesAreMoved,
  NodesAreLinked,
  NodesAreUnlinked,
};

/// On every sound volume, a node made under a name that isn't there, and an empty one dropped with
/// its name, leave all sound, and change the volume that is seen as the serial server does.
pub fn nodes_are_made_and_dropped()
    ensures made { NodesAreMade }
    ensures dropped { NodesAreDropped }
{}

/// On every sound volume, a file that gets a size leaves all sound, is seen cut or grown by zeros,
/// and the blocks that leave it are dead.
pub fn files_are_sized()
    ensures { FilesAreSized }
{}

/// On every sound volume, a node that moves to a name that isn't there, of a directory that isn't
/// below it, leaves all sound, and is seen there.
pub fn nodes_are_moved()
    ensures { NodesAreMoved }
{}

/// On every sound volume, a node that isn't a directory and gets a name that isn't there, and one
/// that loses a name and has others, leave all sound, and are seen with one more, and one less.
pub fn nodes_are_linked()
    ensures linked { NodesAreLinked }
    ensures unlinked { NodesAreUnlinked }
{}
