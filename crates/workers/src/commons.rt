//! What the threads of a pool share.

use crate::stop_word::StopWord;
use granted_calls::{Filer, SharedOutboxes};
use std::alloc::AllocError;
use std::sync::Arc;

/// What the threads of a pool share.
#[derive(Drop)]
pub(crate) struct Commons {
    pub(crate) filer: Arc<Filer>,
    pub(crate) outboxes: Arc<SharedOutboxes>,
    pub(crate) stop: Arc<StopWord>,
}

impl Commons {
    ghost use Rattle.std.specs.Prelude.{◌≡◌, IfOk};
    ghost use Rattle.std.specs.Arc.{arc_value};

    /// The same once more.
    pub(crate) fn another(&self) -> Result<Commons, AllocError>
        ensures filer { IfOk result (λ c. arc_value c.filer ≡ arc_value self.now.filer) }
        ensures outboxes { IfOk result
            (λ c. arc_value c.outboxes ≡ arc_value self.now.outboxes) }
    {
        Ok(Commons {
            filer: self.filer.clone()?,
            outboxes: self.outboxes.clone()?,
            stop: self.stop.clone()?,
        })
    }
}
