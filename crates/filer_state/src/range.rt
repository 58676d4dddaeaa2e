//! The parcel of a range.

ghost use Rattle.std.specs.Prelude.{◌≡◌, IfOk};

use std::alloc::{AllocError, Global};
use std::marker::Model;
use vbn_ranges::Range;

/// A range of a volume, in memory of its own.
pub struct RangeParcel {
    range: Box<Range>,
}

// By hand, so that crates above have no proof of the drop of each of its parts.
impl Drop for RangeParcel {
    fn drop(self) {
        let RangeParcel { range: _ } = self;
    }
}

impl Model for RangeParcel {
    ghost use Rattle.nfs_model.specs.volume.Ranges.{RangeValue};
    ghost use Rattle.nfs_model.specs.volume.Codes.{coded_range};

    ghost Value = { RangeValue };

    ghost coded = { coded_range };

    ghost view = { λ p. p.range.value };
}

impl RangeParcel {
    ghost use Rattle.std.specs.Borrow.{Lends, sem};
    ghost use Rattle.vbn_ranges.specs.contracts.range.Range.{the_row as range_row};
    ghost use Rattle.filer_state.specs.contracts.range.RangeParcel.{the_row};

    /// The parcel of a range.
    pub fn new(alloc: Global, range: Range) -> Result<RangeParcel, AllocError>
        ensures { IfOk result (λ parcel. parcel ≡ range) }
    {
        Ok(RangeParcel {
            range: Box::new(alloc, range)?,
        })
    }

    /// The range.
    pub fn get(&self) -> &Range
        ensures { result.now ≡ self.now }
    {
        self.range.as_ref()
    }

    /// The range, to be changed.
    pub fn get_mut(&mut self) -> &mut Range
        ensures* writes_back { sem 𝓛 (Lends the_row range_row self.entry result (λ r. r)) }
        ensures value { result.now ≡ self.old }
    {
        self.range.as_mut()
    }
}
