//! The parcel of Volume Logical.

ghost use Rattle.std.specs.Prelude.{◌≡◌, IfOk};

use crate::directory_map::DirectoryMap;
use crate::text_map::TextMap;
use inodes::Inodes;
use memos::Memos;
use nfs_values::Verifier;
use std::alloc::{AllocError, Global};
use std::marker::Model;
use vbn_ranges::{DeadBlocks, Stock};

/// What a volume has but for its stripes and ranges.
#[derive(Drop)]
pub struct Logical {
    /// Of writes, fixed for the run (writeverf3, RFC 1813 section 3.3.7).
    pub verifier: Verifier,
    /// How many stripes the volume has.
    pub stripes: u32,
    /// The largest size of a file of the volume, in bytes.
    pub largest: u64,
    /// The most inodes of the volume, the root with them.
    pub most_inodes: u32,
    /// How many steps from a directory to its parent a RENAME of a directory takes at most.
    pub most_steps: u32,
    pub inodes: Inodes,
    /// By their fileids.
    pub directories: DirectoryMap,
    /// Of symbolic links, by their fileids.
    pub texts: TextMap,
    pub stock: Stock,
    pub dead: DeadBlocks,
    /// What is remembered of calls that may come again.
    pub memos: Memos,
}

/// What a volume has but for its stripes and ranges, in memory of its own.
pub struct LogicalParcel {
    logical: Box<Logical>,
}

// By hand, so that crates above have no proof of the drop of each of its parts.
impl Drop for LogicalParcel {
    fn drop(self) {
        let LogicalParcel { logical: _ } = self;
    }
}

impl Model for LogicalParcel {
    ghost use Rattle.nfs_model.specs.volume.Logical.{LogicalValue};
    ghost use Rattle.nfs_model.specs.volume.Codes.{coded_logical};
    ghost use Rattle.filer_state.specs.Logical.{logical_value};

    ghost Value = { LogicalValue };

    ghost coded = { coded_logical };

    ghost view = { λ p. logical_value p.logical.value };
}

impl LogicalParcel {
    ghost use Rattle.std.specs.Borrow.{Lends, sem};
    ghost use Rattle.filer_state.specs.Logical.{logical_value};
    ghost use Rattle.filer_state.specs.contracts.logical.Logical.{the_row as logical_row};
    ghost use Rattle.filer_state.specs.contracts.logical.LogicalParcel.{the_row};

    /// The parcel of this.
    pub fn new(alloc: Global, logical: Logical) -> Result<LogicalParcel, AllocError>
        ensures { IfOk result (λ parcel. parcel ≡ logical_value logical) }
    {
        Ok(LogicalParcel {
            logical: Box::new(alloc, logical)?,
        })
    }

    /// What it has.
    pub fn get(&self) -> &Logical
        ensures { logical_value result.now ≡ self.now }
    {
        self.logical.as_ref()
    }

    /// What it has, to be changed.
    pub fn get_mut(&mut self) -> &mut Logical
        ensures* writes_back { sem 𝓛 (Lends the_row logical_row self.entry result logical_value) }
        ensures value { logical_value result.now ≡ self.old }
    {
        self.logical.as_mut()
    }
}
