//! Connections that are looked at and closed.

use crate::lane::Lane;
use crate::lane_outboxes::close_in;
use connections::{Connection, Device, Flags, flag_under};

impl<D: Device, R> Lane<D, R> {
    ghost use Rattle.std.specs.Prelude.{◌≡◌, option_copied, IfSome};
    ghost use Rattle.slab.specs.Slab.{get};
    ghost use Rattle.connections.specs.Keyed.{Closes, Flagged};
    ghost use Rattle.granted_calls.specs.shared_waiting.Passes.{known};
    ghost use Rattle.lanes.specs.Story.{with_closed};
    ghost use Rattle.lanes.specs.Words.{boxes_in, closed_in, connections_in, filer_in};
    ghost use Rattle.lanes.specs.Words.{identity_in, intake_in, pass_in, waiting_in, worker_in};
    ghost use Rattle.lanes.specs.Written.{WasWritten};

    /// The connection of a key.
    pub fn connection(&self, key: usize) -> Option<&Connection<D>>
        ensures { option_copied result ≡ get (connections_in self.now) key }
    {
        self.connections.get(key)
    }

    /// How many messages were admitted and not finished.
    pub fn waiting(&self) -> usize
        ensures { result ≡ waiting_in self.now }
    {
        self.intake.waiting
    }

    /// Keeps what a thread keeps of the connection of a key, if there is one.
    pub fn set_flags(&mut self, key: usize, flags: Flags)
        ensures flags { Flagged (connections_in self.old) key (get (connections_in self.old) key)
            flags (connections_in self.new) }
        ensures intake { intake_in self.new ≡ intake_in self.old }
        ensures closed { closed_in self.new ≡ closed_in self.old }
        ensures worker { worker_in self.new ≡ worker_in self.old }
        ensures filer { filer_in self.new ≡ filer_in self.old }
        ensures identity { identity_in self.new ≡ identity_in self.old }
    {
        flag_under(&mut self.connections, key, flags);
    }

    /// Closes the connection of a key, and gives its device back. What waits for it is lost; its
    /// calls still run. The bytes that the device was given since it was opened are a beginning of
    /// the records of the replies to it.
    pub fn close(&mut self, key: usize) -> Option<D>
        ensures closes { Closes (connections_in self.old) key (boxes_in self.old)
            (get (connections_in self.old) key) result (connections_in self.new)
            (boxes_in self.new) }
        ensures closed { closed_in self.new
            ≡ with_closed (get (connections_in self.old) key) (closed_in self.old) }
        ensures written { IfSome result
            (λ device. ∥ WasWritten D.written self.old key device ∥₁) }
        ensures pass { known (pass_in self.new) ≡ known (pass_in self.old) }
        ensures worker { worker_in self.new ≡ worker_in self.old }
        ensures filer { filer_in self.new ≡ filer_in self.old }
        ensures identity { identity_in self.new ≡ identity_in self.old }
    {
        match close_in(&mut self.connections, key, &mut self.intake.outboxes) {
            Some(connection) => {
                self.closed = self.closed.and(&connection);
                Some(connection.into_device())
            }
            None => None,
        }
    }
}
