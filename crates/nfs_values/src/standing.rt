//! What a server lets the callers of a peer do.

ghost use Rattle.std.specs.Prelude.{◌≡◌};
ghost use Rattle.nfs_model.specs.Standing.{acts_for, anonymous, is_nobody, squashed_root, standing};
ghost use Rattle.nfs_values.specs.Caller.{caller_of};
ghost use Rattle.nfs_values.specs.Credential.{credential_of};
ghost use Rattle.nfs_values.specs.Standing.{standing_of};

use crate::caller::Caller;
use crate::credential::{Credential, GroupList};

/// Whose calls are taken as those of the anonymous user.
#[derive(Clone, Copy, Debug, PartialEq, Eq)]
pub enum Squash {
    NoOne,
    /// Uid 0 and gid 0.
    Root,
    Everyone,
}

/// What a server lets the callers of a peer do, and for whom it takes them (our profile).
#[derive(Clone, Copy)]
pub struct Standing {
    /// Whether the owner, the groups and the mode of objects are asked.
    pub is_checked: bool,
    /// Whether callers may change nothing.
    pub reads_only: bool,
    pub squash: Squash,
    pub anonymous_uid: u32,
    pub anonymous_gid: u32,
}

/// Whether a credential is that of a call which has none.
fn is_nobody(credential: &Credential) -> bool
    ensures { result ≡ is_nobody (credential_of credential.now) }
{
    credential.uid == 65534 && credential.gid == 65534 && credential.gids.is_none()
}

impl Standing {
    /// Callers aren't checked, and are whom they claim to be.
    pub const UNCHECKED: Standing = Standing {
        is_checked: false,
        reads_only: false,
        squash: Squash::NoOne,
        anonymous_uid: 65534,
        anonymous_gid: 65534,
    };

    /// The anonymous user.
    fn anonymous(&self) -> Credential
        ensures { credential_of result ≡ anonymous (standing_of self.now) }
    {
        Credential {
            uid: self.anonymous_uid,
            gid: self.anonymous_gid,
            gids: GroupList::NONE,
        }
    }

    /// Whom a call acts for, where uid 0 and gid 0 are taken as anonymous.
    fn without_root(&self, credential: &Credential) -> Credential
        ensures { credential_of result
            ≡ squashed_root (standing_of self.now) (credential_of credential.now) }
    {
        if credential.uid == 0 {
            return self.anonymous();
        }
        let gid = match credential.gid {
            0 => self.anonymous_gid,
            gid => gid,
        };
        Credential {
            uid: credential.uid,
            gid,
            gids: credential.gids.with_zero_as(self.anonymous_gid),
        }
    }

    /// Whom a call acts for.
    fn acts_for(&self, credential: &Credential) -> Credential
        ensures { credential_of result
            ≡ acts_for (standing_of self.now) (credential_of credential.now) }
    {
        if is_nobody(credential) {
            return self.anonymous();
        }
        match self.squash {
            Squash::NoOne => *credential,
            Squash::Root => self.without_root(credential),
            Squash::Everyone => self.anonymous(),
        }
    }

    /// A caller of such a peer.
    pub fn caller(&self, caller: Caller) -> Caller
        ensures { caller_of result ≡ standing (standing_of self.now) (caller_of caller) }
    {
        let credential = if self.is_checked {
            self.acts_for(&caller.credential)
        } else {
            caller.credential
        };
        Caller {
            credential,
            is_checked: self.is_checked,
            reads_only: self.reads_only,
            ..caller
        }
    }
}
