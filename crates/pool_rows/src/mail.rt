//! The outboxes of a filer with one connection, and a pass of them.

ghost use Rattle.std.specs.Arc.{arc_value};
ghost use Rattle.granted_calls.specs.SharedOutboxes.{IsOf};

use granted_calls::{Answer, OutboxesPass, SharedOutboxes};
use nfs_values::ConnectionNumber;
use outboxes::Record;
use std::process::Abort;
use std::sync::{Arc, Wait};

/// The outboxes of a filer, with a pass of them, and their only connection.
#[derive(Drop)]
pub(crate) struct Mail {
    pub(crate) outboxes: Arc<SharedOutboxes>,
    pub(crate) pass: OutboxesPass,
    pub(crate) connection: ConnectionNumber,
    pub(crate) ghost of: { IsOf (arc_value outboxes) pass },
}

/// Outboxes with a connection, and a second pass of them.
pub(crate) fn open_mail<R: Abort + AllocGlobal + Wait>(rt: &R) -> (Mail, OutboxesPass)
    ensures { IsOf (arc_value result.0.outboxes) result.1 }
{
    let made = SharedOutboxes::new(rt, rt.alloc());
    let (outboxes, pass) = made.expect(rt, "no memory");
    let (mut pass, lent) = outboxes.split_pass(pass);
    let connection = outboxes.open(rt, &mut pass).ok().expect(rt, "a connection");
    let outboxes = Arc::new(rt.alloc(), outboxes).expect(rt, "no memory");
    let mail = Mail {
        outboxes,
        pass,
        connection,
    };
    (mail, lent)
}

impl Mail {
    /// Opens another connection.
    pub(crate) fn open<R: Wait>(&mut self, rt: &R) -> Option<ConnectionNumber> {
        self.outboxes.open(rt, &mut self.pass).ok()
    }

    /// Shuts a connection.
    pub(crate) fn shut<R: Wait>(&mut self, rt: &R, connection: ConnectionNumber) {
        self.outboxes.shut(rt, &mut self.pass, connection);
    }

    /// Takes the record that waits longest.
    pub(crate) fn take<R: Wait>(&mut self, rt: &R) -> Option<Record> {
        self.outboxes.take(rt, &mut self.pass, self.connection)
    }

    /// Puts an answer.
    pub(crate) fn put<R: Wait>(&mut self, rt: &R, answer: Answer) {
        self.outboxes.put(rt, &mut self.pass, answer);
    }
}
