//! Connections that are written.

use crate::lane::Lane;
use crate::lane_outboxes::write_in;
use connections::{Device, Sent};

impl<D: Device, R> Lane<D, R> {
    ghost use Rattle.std.specs.Prelude.{◌≡◌};
    ghost use Rattle.slab.specs.Slab.{get};
    ghost use Rattle.connections.specs.Keyed.{WritesUnder};
    ghost use Rattle.granted_calls.specs.shared_waiting.Passes.{known};
    ghost use Rattle.lanes.specs.Words.{boxes_in, closed_in, connections_in, filer_in};
    ghost use Rattle.lanes.specs.Words.{identity_in, pass_in, worker_in};

    /// Goes on writing the connection of a key (`Connection::write`), with a buffer for what goes
    /// out at once. Where there is none, nothing is done, as where its device failed.
    pub fn write(&mut self, key: usize, buffer: &mut Vec<u8>) -> Sent
        ensures write { WritesUnder D.unread D.written (connections_in self.old) key
            (get (connections_in self.old) key) (boxes_in self.old) result
            (connections_in self.new) (boxes_in self.new) }
        ensures closed { closed_in self.new ≡ closed_in self.old }
        ensures worker { worker_in self.new ≡ worker_in self.old }
        ensures pass { known (pass_in self.new) ≡ known (pass_in self.old) }
        ensures filer { filer_in self.new ≡ filer_in self.old }
        ensures identity { identity_in self.new ≡ identity_in self.old }
    {
        write_in(
            &mut self.connections,
            key,
            &mut self.intake.outboxes,
            buffer,
        )
    }
}
