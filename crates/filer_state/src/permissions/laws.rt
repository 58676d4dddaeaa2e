//! What follows from the definitions. The function does nothing: its contract is a theorem.

ghost use Rattle.filer_state.specs.permissions.Laws.{RefusalsAreRight};

/// What a caller is refused by the inodes and entries that are held is what the serial server
/// refuses it.
pub fn refusals_are_right()
    ensures { RefusalsAreRight }
{}
