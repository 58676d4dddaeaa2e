//! What a lane does without a message.

ghost use Rattle.std.specs.Prelude.{◌≡◌};

use crate::lane::Lane;
use connections::Device;
use turns::{Tend, TendRefusal, Tended};

impl<D: Device, R> Lane<D, R> {
    ghost use Rattle.lanes.specs.Words.{boxes_in, closed_in, connections_in, filer_in};
    ghost use Rattle.lanes.specs.Words.{identity_in, pass_in, worker_in};
    ghost use Rattle.granted_calls.specs.shared_waiting.Passes.{known};
    ghost use Rattle.turns.specs.Tends.{kept_in, Tends};
    ghost use Rattle.granted_calls.specs.Filers.{layout_in};
    ghost use Rattle.turns.specs.Words.{passed, seats_in};

    /// Does something with the batch of block numbers in its worker's hand (`Worker::tend_in`).
    pub fn tend(&mut self, tend: Tend) -> Result<Tended, TendRefusal>
        ensures tends { Tends (layout_in (filer_in self.old)) (worker_in self.old) tend result
            (worker_in self.new) }
        ensures pass { known (pass_in self.new) ≡ known (pass_in self.old) }
        ensures outboxes { boxes_in self.new ≡ boxes_in self.old }
        ensures connections { connections_in self.new ≡ connections_in self.old }
        ensures closed { closed_in self.new ≡ closed_in self.old }
        ensures picks { passed (worker_in self.new) ≡ passed (worker_in self.old) }
        ensures kept { kept_in (worker_in self.new) ≡ kept_in (worker_in self.old) }
        ensures seats { seats_in (worker_in self.new) ≡ seats_in (worker_in self.old) }
        ensures filer { filer_in self.new ≡ filer_in self.old }
        ensures identity { identity_in self.new ≡ identity_in self.old }
    {
        self.intake
            .worker
            .tend_in(&self.filer, &self.intake.queue, tend)
    }
}
