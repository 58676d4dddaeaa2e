//! What the clerk tells of what was counted.

use statistics::{Tally, Totals};
use std::fmt;

/// How many blocks and inodes all volumes use.
#[derive(Clone, Copy)]
pub struct Used {
    pub blocks: u64,
    pub inodes: u64,
}

/// What the clerk asks of the server whose lines it writes.
pub trait Inquiry {
    /// What each lane counted, if lanes count.
    fn tallies(&self) -> &[Tally];

    /// How many connections are open.
    fn open(&self) -> u64;

    /// What all volumes use, where that can be told.
    fn used(&self) -> Option<Used>;
}

/// What all lanes counted so far.
pub(crate) fn totals_of(tallies: &[Tally]) -> Totals {
    let mut totals = Totals::new();
    for tally in tallies {
        totals.add(tally);
    }
    totals
}

/// A line of statistics: what was counted since the line before, and what is so now.
#[derive(Clone, Copy)]
pub struct Report {
    pub totals: Totals,
    pub open: u64,
    pub used: Option<Used>,
}

impl fmt::Display for Report {
    fn fmt<W: fmt::Write>(&self, f: &mut fmt::Formatter<W>) -> fmt::Result {
        let (totals, open) = (&self.totals, self.open);
        write!(f, "{totals}; connections {open}")?;
        match self.used {
            Some(Used { blocks, inodes }) => write!(f, ", blocks {blocks}, inodes {inodes}"),
            None => write!(f, ", blocks ?, inodes ?"),
        }
    }
}
