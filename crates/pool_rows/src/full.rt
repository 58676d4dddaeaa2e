//! What the only worker of a filer leaves where the queue is full: all that waits, and a message
//! that it keeps, for which the queue had no place again.

ghost use Rattle.pool_rows.specs.Threads.{HasPut, IsAlone, IsReaderOf, IsStill};
ghost use Rattle.turns.specs.Words.{IsIn};

use crate::calls::{Ask, ROOT};
use crate::latch::comes;
use crate::leaving::leave;
use crate::mail::{Mail, open_mail};
use crate::opening::{Opened, open};
use crate::putting::{FilerPass, put, put_all};
use crate::rows::came;
use crate::station::{Came, turn};
use crate::xids::{add_xids, has_all};
use granted_calls::{Filer, Gate, Place, Stage, Unwatched};
use nfs_values::ConnectionNumber;
use scheduler::MOST_WAITING;
use std::process::Abort;
use std::sync::Wait;
use std::sync::atomic::{AtomicBool, Ordering};
use std::thread;
use std::thread::Threads;
use tends::{Ended, close};
use turns::Worker;

/// The xid of the CREATE that makes file 2 of volume 0.
const MADE: u32 = 0;

/// The xid of the WRITE that extends the file, so that it moves to Volume Logical. It is kept.
const KEPT: u32 = 1;

/// The xid of the message that is put in the midst of the WRITE's turn. The messages from the WRITE
/// to before it fill the queue.
const LATE: u32 = KEPT + 1024;

/// What all messages after the WRITE ask.
const OTHER: Ask = Ask::Attributes(1, ROOT);

/// Holds a call after its begin until the late message was put.
#[derive(Drop)]
struct Holding<'a> {
    late: &'a AtomicBool,
}

impl Gate for Holding<'_> {
    fn pass(&self, place: Place) {
        if place.stage == Stage::Begun {
            comes(self.late);
        }
    }
}

/// Puts the late message once there is a place, and tells so.
fn put_late<R: Abort + AllocGlobal + Wait>(
    rt: &R,
    filer: &Filer,
    mut reader: FilerPass,
    connection: ConnectionNumber,
    late: &AtomicBool,
) -> FilerPass
    requires { IsReaderOf filer.now reader }
    ensures { HasPut filer.now reader result }
{
    put(rt, filer, &mut reader, connection, LATE, OTHER);
    late.store(true, Ordering::SeqCst);
    reader
}

/// A turn whose call moves, and goes on only once the late message was put.
fn turn_held<R: Abort + Wait>(
    rt: &R,
    filer: &Filer,
    mut worker: Worker,
    mail: &mut Mail,
    late: &AtomicBool,
) -> Worker
    requires { IsIn filer.now worker }
    ensures { IsStill filer.now worker result }
{
    let gate = Holding { late };
    let found = turn(rt, filer, &mut worker, mail, &gate, 2);
    came(rt, found, Came::Moved);
    worker
}

/// A turn of the worker, in whose midst another thread puts a message in the place that the picked
/// one had.
fn turn_beside<R: Abort + AllocGlobal + Threads + Wait + Sync>(
    rt: &R,
    filer: &Filer,
    worker: Worker,
    reader: FilerPass,
    mail: &mut Mail,
) -> (Worker, FilerPass)
    requires { IsAlone filer.now worker reader }
    ensures { IsAlone filer.now result.0 result.1 }
{
    let connection = mail.connection;
    let late = &AtomicBool::new(false);
    let (reader, worker) = thread::join(
        rt,
        move || -> FilerPass
            requires { IsReaderOf filer.now reader }
            ensures { HasPut filer.entry.now reader result }
        { put_late(rt, filer, reader, connection, late) },
        move || -> Worker
            requires { IsIn filer.now worker }
            ensures { IsStill filer.entry.now worker result }
        { turn_held(rt, filer, worker, mail, late) },
    );
    (worker, reader)
}

/// A filer whose queue is full and whose only worker keeps a message, and which is then closed.
fn filled<R: Abort + AllocGlobal + Threads + Wait + Sync>(rt: &R) -> Ended {
    let Opened {
        filer,
        seat,
        pass,
        mut reader,
    } = open(rt);
    let (mut mail, _lent) = open_mail(rt);
    let connection = mail.connection;
    let mut worker = Worker::start(&filer, filer.waiting(), seat, pass);
    put(rt, &filer, &mut reader, connection, MADE, Ask::Create(0, 0));
    let found = turn(rt, &filer, &mut worker, &mut mail, &Unwatched, 1);
    came(rt, found, Came::Done(MADE));
    let extend = Ask::Write(0, 2, 0, 1, 0x61);
    put(rt, &filer, &mut reader, connection, KEPT, extend);
    put_all(rt, &filer, &mut reader, connection, KEPT + 1, LATE, OTHER);
    let (worker, reader) = turn_beside(rt, &filer, worker, reader, &mut mail);
    let left = leave(rt, &filer, worker, reader);
    close(filer, left)
}

/// The message that is kept and all that wait, in the order in which they came, are left: none is
/// missing, and none is there twice.
#[test]
fn a_kept_message_and_a_full_queue_are_left(rt: HostRuntime) {
    let ended = filled(&rt);
    assert_eq!(&rt; (ended.kept.len(), ended.waiting.len()), (1, MOST_WAITING));
    let mut xids = Vec::new(rt.alloc());
    add_xids(&rt, &mut xids, &ended.kept);
    add_xids(&rt, &mut xids, &ended.waiting);
    has_all(&rt, &xids, KEPT, LATE + 1);
}
