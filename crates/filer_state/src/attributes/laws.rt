//! What follows from the definitions. The function does nothing: its contract is a theorem.

ghost use Rattle.filer_state.specs.attributes.Laws.{GetattrIsRight};

/// On every sound volume with the parcels that are held, GETATTR answers as the serial server does,
/// changes nothing, and all stays sound.
pub fn attribute_calls_are_right()
    ensures { GetattrIsRight }
{}
