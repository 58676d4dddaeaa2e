//! What ends a test.

ghost use Rattle.std.specs.Prelude.{◌≡◌, true};

use std::process::Abort;

/// Looks whether this is so.
pub(crate) fn holds(rt: &impl Abort, is_so: bool)
    ensures { is_so ≡ true }
{
    assert!(rt; is_so);
}
