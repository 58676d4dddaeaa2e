//! A filer whose workers run.

ghost use Rattle.std.specs.Prelude.{◌≤◌, ◌<◌};

use crate::calls::Ask;
use crate::mail::{Mail, open_mail};
use crate::opening::{Opened, open};
use crate::putting::{FilerPass, put};
use granted_calls::{Filer, Gate};
use outboxes::Record;
use std::marker::Model;
use std::process::Abort;
use std::rt::Clock;
use std::sync::{Arc, Wait};
use std::thread;
use std::thread::Threads;
use tends::{Ended, close};
use workers::Pool;

/// How often it is looked whether something has come.
pub(crate) const LOOKS: usize = 10_000_000;

/// A filer whose workers run, with the pass of who puts messages, and its outboxes.
#[derive(Drop)]
pub(crate) struct Running {
    pub(crate) filer: Arc<Filer>,
    pub(crate) pool: Pool,
    pub(crate) reader: FilerPass,
    pub(crate) mail: Mail,
}

impl Model for Running {
    ghost use Rattle.std.specs.Prelude.{ℕ, length};
    ghost use Rattle.std.specs.Arc.{arc_value};
    ghost use Rattle.workers.specs.Pools.{threads_of};
    ghost use Rattle.pool_rows.specs.Threads.{IsRunning};

    ghost Value = { ℕ };

    ghost view = { λ r. length (threads_of r.pool) };

    ghost invariant = { λ r. IsRunning (arc_value r.filer) r.pool r.reader };
}

/// Opens a filer and starts this many workers, who tell a gate of their calls.
pub(crate) fn start<R, G>(rt: R, gate: &G, workers: usize) -> Running
where
    R: Abort + AllocGlobal + Threads + Wait + Clock + Copy + Drop + Send + 'static,
    G: Gate + Clone + Drop + Send + 'static,
    requires some { 0 < workers }
    requires fit { workers ≤ 64 }
{
    let Opened {
        filer,
        seat,
        pass,
        reader,
    } = open(&rt);
    let (mail, lent) = open_mail(&rt);
    let filer = Arc::new(rt.alloc(), filer).expect(&rt, "no memory");
    let started = Pool::start(
        rt,
        rt.alloc(),
        &filer,
        &mail.outboxes,
        gate,
        seat,
        pass,
        lent,
        workers,
    );
    Running {
        filer,
        pool: started.ok().expect(&rt, "a thread"),
        reader,
        mail,
    }
}

impl Running {
    /// Puts a message.
    pub(crate) fn put<R: Abort + AllocGlobal + Wait>(&mut self, rt: &R, xid: u32, ask: Ask) {
        let connection = self.mail.connection;
        put(rt, &self.filer, &mut self.reader, connection, xid, ask);
    }

    /// The next reply, once it has come.
    pub(crate) fn awaited<R: Abort + Wait>(&mut self, rt: &R) -> Record {
        for _ in 0..LOOKS {
            if let Some(record) = self.mail.take(rt) {
                return record;
            }
            thread::yield_now();
        }
        panic!(rt; "no reply")
    }

    /// Stops the workers, and closes the filer. The outboxes are there still.
    pub(crate) fn stop<R: Abort + AllocGlobal + Threads + Wait>(self, rt: &R) -> (Ended, Mail) {
        let Running {
            filer,
            pool,
            reader,
            mail,
        } = self;
        let passes = vec![in rt.alloc(); reader].expect(rt, "no memory");
        let (left, _lent) = pool.stop(rt, passes);
        let filer = Arc::try_unwrap(filer)
            .ok()
            .expect(rt, "no other has the filer");
        (close(filer, left), mail)
    }
}
