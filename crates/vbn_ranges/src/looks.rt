//! Words that a search looks at.

ghost use Rattle.std.specs.Prelude.{◌≤◌};
ghost use Rattle.nfs_model.specs.Parts.{most_carried};

/// How many words a search looked at, and how many of them gave a block.
#[derive(Drop)]
pub struct Looks {
    pub looked: usize,
    pub giving: usize,
    pub ghost few: { giving ≤ most_carried },
}
