//! What a lane's thread asks of it.

use crate::intake::MOST_OWED;
use crate::lane::Lane;
use connections::Device;
use granted_calls::Filer;
use statistics::ReplyCounts;
use turns::Worker;

impl<D: Device, R> Lane<D, R> {
    ghost use Rattle.std.specs.Prelude.{◌≡◌};
    ghost use Rattle.lanes.specs.Words.{count_in, filer_in, index_in, worker_in};

    /// Which of its filer's lanes it is, from 0.
    pub fn index(&self) -> usize
        ensures { result ≡ index_in self.now }
    {
        self.index
    }

    /// How many lanes its filer has.
    pub fn count(&self) -> usize
        ensures { result ≡ count_in self.now }
    {
        self.count
    }

    /// Its filer.
    pub fn filer(&self) -> &Filer
        ensures { result.now ≡ filer_in self.now }
    {
        &self.filer
    }

    /// Its worker.
    pub fn worker(&self) -> &Worker
        ensures { result.now ≡ worker_in self.now }
    {
        &self.intake.worker
    }

    /// How many calls that may leave blocks to tend were admitted, wrapping at 2^64.
    pub fn leaving_calls(&self) -> u64 {
        self.intake.leaving
    }

    /// The replies that were made at once, to records that no worker answers, by kind.
    pub fn at_once(&self) -> &ReplyCounts {
        &self.intake.at_once
    }

    /// How many calls were told a reply again, wrapping at 2^64.
    pub fn repeated(&self) -> u64 {
        self.intake.ahead.repeated()
    }

    /// Whether so much may be owed to a connection that is read further.
    pub fn may_owe(&self, owed: usize) -> bool {
        owed < MOST_OWED
    }
}
