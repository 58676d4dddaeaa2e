//! Counts of a volume.

ghost use Rattle.std.specs.Prelude.{◌≡◌, ◌-◌};

/// How many block numbers of a volume are in files, in the stock and dead, and how many there are.
/// The others are free, or in hands.
#[derive(Clone, Copy)]
pub struct VolumeCounts {
    pub files: usize,
    pub stock: usize,
    pub dead: usize,
    pub total: usize,
}

/// How many block numbers of a volume are where, and how many there are.
#[derive(Clone, Copy)]
pub struct PartCounts {
    /// In blocks of files.
    pub files: usize,
    /// For files, under Volume Logical.
    pub stock: usize,
    /// Left by files, and not yet free.
    pub dead: usize,
    /// In the bitmaps of the ranges.
    pub free: usize,
    /// In the hands of workers.
    pub hands: usize,
    pub total: usize,
}

impl VolumeCounts {
    ghost use Rattle.engine.specs.counts.Counts.{told_of, parts_told};

    /// All parts, where hands carry this many.
    pub fn with_hands(self, hands: usize) -> PartCounts
        ensures { parts_told result ≡ told_of hands self }
    {
        let VolumeCounts {
            files,
            stock,
            dead,
            total,
        } = self;
        let held = total.saturating_sub(files).saturating_sub(stock);
        PartCounts {
            files,
            stock,
            dead,
            free: held.saturating_sub(dead).saturating_sub(hands),
            hands,
            total,
        }
    }
}
