//! What waits for a connection.

ghost use Rattle.front_rows.specs.Leaving.{HasLeft, IsEmpty, left_none, left_more};

use nfs_values::ConnectionNumber;
use outboxes::{Outboxes, Record};
use tcp_front::RecordSource;

/// The outbox of a connection.
#[derive(Drop)]
pub struct Waiting {
    pub outboxes: Outboxes,
    pub connection: ConnectionNumber,
}

impl RecordSource for Waiting {
    ghost gave = { λ s ms t. HasLeft s.connection.0 s.outboxes ms t.connection.0 t.outboxes };

    ghost is_out = { λ s. IsEmpty s.connection.0 s.outboxes };

    fn take(&mut self) -> Option<Record> {
        let connection = self.connection;
        self.outboxes.take(connection)
    }

    ghost gave_none = { λ s. left_none s.connection.0 s.outboxes };

    ghost gave_more = { λ s t u ms others f g. left_more s.connection.0 t.connection.0
        u.connection.0 s.outboxes t.outboxes u.outboxes ms others f g };
}
