//! What workers share.

use crate::envelope::Envelope;
use crate::moments::Moments;
use crate::shared_waiting::SharedWaiting;
use affinity::Layout;
use depot::Depot;
use nfs_values::Verifier;
use service::Service;
use std::alloc::Global;

/// A filer: the parcels of a layout, the messages that wait for its workers, and when its calls
/// run.
pub struct Filer {
    pub alloc: Global,
    pub(crate) verifier: Verifier,
    pub depot: Depot<Service>,
    pub waiting: SharedWaiting<Envelope, Layout>,
    pub(crate) moments: Moments,
}

// By hand, so that crates above have no proof of the drop of each of its parts.
impl Drop for Filer {
    fn drop(self) {
        let Filer {
            alloc: _,
            verifier: _,
            depot: _,
            waiting: _,
            moments: _,
        } = self;
    }
}

impl Filer {
    ghost use Rattle.std.specs.Prelude.{◌≡◌};

    /// Its depot. What waits is dropped.
    pub fn into_depot(self) -> Depot<Service>
        ensures { result ≡ self.depot }
    {
        let Filer {
            alloc: _,
            verifier: _,
            depot,
            waiting: _,
            moments: _,
        } = self;
        depot
    }
}
