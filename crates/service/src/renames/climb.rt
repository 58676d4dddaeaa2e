//! What the way up from a directory comes to.

ghost use Rattle.std.specs.Prelude.{◌≡◌};

use nfs_values::Status;

/// The way up from a directory: the root is reached past a target, the target is met, or the steps
/// are too few.
#[derive(Clone, Copy)]
pub(crate) enum Climb {
    PastIt,
    ToIt,
    TooFar,
}

impl Climb {
    ghost use Rattle.std.specs.Option.{option_map};
    ghost use Rattle.nfs_model.specs.Serial.Rename.{climb_fault};
    ghost use Rattle.nfs_values.specs.Status.{status_of};
    ghost use Rattle.service.specs.renames.Climbing.{climb_of};

    /// What is wrong with a directory above whose new place this is met: INVAL where it would come
    /// into itself or below itself, NAMETOOLONG where it would come so deep that it isn't known.
    pub(crate) fn fault(self) -> Option<Status>
        ensures { option_map status_of result ≡ climb_fault (climb_of self) }
    {
        match self {
            Climb::PastIt => None,
            Climb::ToIt => Some(Status::Invalid),
            Climb::TooFar => Some(Status::NameTooLong),
        }
    }
}
