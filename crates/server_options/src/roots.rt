//! Who owns the roots of volumes.

ghost use Rattle.std.specs.Prelude.{◌≡◌};
ghost use Rattle.nfs_values.specs.Ownership.{ownership_of};
ghost use Rattle.server_options.specs.Standings.{root_for, usual_root};

use nfs_values::{Ownership, Squash, Standing};

/// Who owns roots where no mode is named: uid 0, or the anonymous user, where uid 0 is taken for
/// that one.
fn usual_root(standing: &Standing) -> Ownership
    ensures { ownership_of result ≡ usual_root standing.now.squash standing.now }
{
    match standing.squash {
        Squash::NoOne => Ownership::ROOT,
        Squash::Root | Squash::Everyone => Ownership {
            uid: standing.anonymous_uid,
            gid: standing.anonymous_gid,
            ..Ownership::ROOT
        },
    }
}

/// Who owns roots, where callers stand so: with a mode that is named uid 0, and else who may write
/// them then.
pub fn root_for(standing: &Standing, mode: Option<u16>) -> Ownership
    ensures { ownership_of result ≡ root_for standing.now mode }
{
    match mode {
        Some(mode) => Ownership {
            mode,
            ..Ownership::ROOT
        },
        None => usual_root(standing),
    }
}
