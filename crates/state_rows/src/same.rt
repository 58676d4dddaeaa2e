//! What ends a test.

use std::process::Abort;

/// Looks whether this is what is wanted.
pub(crate) fn same<T: PartialEq>(rt: &impl Abort, found: &T, wanted: &T) {
    assert!(rt; found == wanted);
}
