//! What is told of a RENAME.

ghost use Rattle.std.specs.Prelude.{◌≡◌, ℕ, List};
ghost use Rattle.nfs_values.specs.Answer.{name_moved};
ghost use Rattle.inodes.specs.Inode.{kind_value};
ghost use Rattle.service_names.specs.RenamingChanges.{held_renamed};
ghost use Rattle.filer_state.specs.state.Lenses.{LogicalSet};
ghost use Rattle.filer_state.specs.state.Sets.{logical_before};
ghost use Rattle.service.specs.renames.Renaming.{AllWithin, IsWithin, renaming_in};

use crate::renames::as_directory::directory_now;
use crate::renames::between::Between;
use filer_state::Files;
use nfs_values::answer::RenameResults;
use parcels::LogicalHeld;
use service_names::directory_change;

/// The attributes of both directories before the call, and as they are now.
pub(crate) fn told(held: &LogicalHeld<Files>, between: Between) -> RenameResults
    requires from { IsWithin (kind_value between.from.inode.kind) }
    requires to { IsWithin (kind_value between.to.inode.kind) }
    requires now { AllWithin held.now.own.inodes.inodes }
    ensures { (from_name to_name : List ℕ) (s : LogicalSet) → name_moved result ≡
        (held_renamed (renaming_in between from_name to_name s) (logical_before held.now)).answer }
{
    let volume = between.volume;
    let from = directory_now(held, between.from);
    let to = directory_now(held, between.to);
    RenameResults {
        from: directory_change(volume, between.from, from),
        to: directory_change(volume, between.to, to),
    }
}
