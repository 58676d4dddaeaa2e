//! A creation that may still be undone.

ghost use Rattle.std.specs.Prelude.{◌≡◌};

use nfs_values::Fileid;
use std::marker::Model;

/// A fileid that an inode was just created under. It is spent either by `keep` or by
/// `Inodes::undo_create`, so that no creation is undone that was kept.
pub struct Created {
    fileid: Fileid,
}

impl Model for Created {
    ghost use Rattle.std.specs.Prelude.{ℕ};
    ghost use Rattle.std.specs.Coded.{coded_ℕ};

    ghost Value = { ℕ };

    ghost coded = { coded_ℕ };

    ghost view = { λ c. c.fileid.0 };
}

impl Created {
    /// What was created under a fileid.
    pub(crate) fn of(fileid: Fileid) -> Created
        ensures { result ≡ fileid.0 }
    {
        Created { fileid }
    }

    /// The new fileid. The creation may still be undone.
    pub fn fileid(&self) -> Fileid
        ensures { result.0 ≡ self.now }
    {
        self.fileid
    }

    /// The new fileid, for good.
    pub fn keep(self) -> Fileid
        ensures { result.0 ≡ self }
    {
        let Created { fileid } = self;
        fileid
    }
}
