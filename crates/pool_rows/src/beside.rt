//! Two threads that put messages at once, each by a pass of its own, while a worker answers some.

ghost use Rattle.granted_calls.specs.shared_waiting.Passes.{known};
ghost use Rattle.pool_rows.specs.Threads.{HasPut, IsAlone, IsHalf, IsReaderOf, IsStill};
ghost use Rattle.turns.specs.Words.{IsIn};

use crate::calls::{Ask, ROOT};
use crate::leaving::leave;
use crate::mail::{Mail, open_mail};
use crate::opening::{Opened, open};
use crate::putting::{FilerPass, put_all};
use crate::rows::came;
use crate::station::{Came, turn};
use crate::xids::{add_xids, has_all};
use granted_calls::{Filer, Unwatched};
use nfs_values::ConnectionNumber;
use std::process::Abort;
use std::sync::Wait;
use std::thread;
use std::thread::Threads;
use tends::{Ended, close};
use turns::Worker;

/// The xids of one thread's messages are those before this, and of the other's from this on.
const SECOND: u32 = 1000;

/// The xid after the last.
const END: u32 = 2000;

/// How many messages are answered. The others have room in the queue.
const ANSWERED: usize = 1500;

/// What each asks. The only worker finishes its call in one turn, so that no message is put back
/// behind others.
const ASK: Ask = Ask::Attributes(0, ROOT);

/// Puts messages with the xids from one to before another. Gives the pass back.
fn put_own<R: Abort + AllocGlobal + Wait>(
    rt: &R,
    filer: &Filer,
    mut pass: FilerPass,
    connection: ConnectionNumber,
    from: u32,
    until: u32,
) -> FilerPass
    requires { IsReaderOf filer.now pass }
    ensures { HasPut filer.now pass result }
{
    put_all(rt, filer, &mut pass, connection, from, until, ASK);
    pass
}

/// Two threads put their messages at once, by halves of a pass.
fn put_both<R: Abort + AllocGlobal + Threads + Wait + Sync>(
    rt: &R,
    filer: &Filer,
    reader: FilerPass,
    connection: ConnectionNumber,
) -> FilerPass
    requires reader { IsReaderOf filer.now reader }
    requires half { IsHalf (known reader) }
    ensures reader { IsReaderOf filer.now result }
    ensures half { IsHalf (known result) }
{
    let (first, second) = filer.waiting().split_pass(reader);
    let (first, second) = thread::join(
        rt,
        move || -> FilerPass
            requires { IsReaderOf filer.now first }
            ensures { HasPut filer.entry.now first result }
        { put_own(rt, filer, first, connection, 0, SECOND) },
        move || -> FilerPass
            requires { IsReaderOf filer.now second }
            ensures { HasPut filer.entry.now second result }
        { put_own(rt, filer, second, connection, SECOND, END) },
    );
    filer.waiting().join_pass(first, second)
}

/// Turns of a worker until so many messages are answered. Their xids, one after the other.
fn serve<R: Abort + AllocGlobal + Wait>(
    rt: &R,
    filer: &Filer,
    mut worker: Worker,
    mail: &mut Mail,
) -> (Worker, Vec<u32>)
    requires { IsIn filer.now worker }
    ensures { IsStill filer.now worker result.0 }
{
    let mut answered = Vec::new(rt.alloc());
    for _ in rt.forever() {
        if answered.len() == ANSWERED {
            break;
        }
        match turn(rt, filer, &mut worker, mail, &Unwatched, 1) {
            Came::Done(xid) => answered.push(xid).expect(rt, "no memory"),
            found => {
                came(rt, found, Came::Idle);
                thread::yield_now();
            }
        }
    }
    (worker, answered)
}

/// Answers messages while two threads put them. The xids of those that were answered.
fn serve_beside<R: Abort + AllocGlobal + Threads + Wait + Sync>(
    rt: &R,
    filer: &Filer,
    worker: Worker,
    reader: FilerPass,
    mail: &mut Mail,
) -> (Worker, FilerPass, Vec<u32>)
    requires { IsAlone filer.now worker reader }
    ensures { IsAlone filer.now result.0 result.1 }
{
    let connection = mail.connection;
    let (reader, (worker, answered)) = thread::join(
        rt,
        move || -> FilerPass
            requires reader { IsReaderOf filer.now reader }
            requires half { IsHalf (known reader) }
            ensures reader { IsReaderOf filer.entry.now result }
            ensures half { IsHalf (known result) }
        { put_both(rt, filer, reader, connection) },
        move || -> (Worker, Vec<u32>)
            requires { IsIn filer.now worker }
            ensures { IsStill filer.entry.now worker result.0 }
        { serve(rt, filer, worker, mail) },
    );
    (worker, reader, answered)
}

/// A filer whose only worker answers messages while two threads put more, and which is then closed.
/// The xids of those that were answered.
fn served<R: Abort + AllocGlobal + Threads + Wait + Sync>(rt: &R) -> (Vec<u32>, Ended) {
    let Opened {
        filer,
        seat,
        pass,
        reader,
    } = open(rt);
    let (mut mail, _lent) = open_mail(rt);
    let worker = Worker::start(&filer, filer.waiting(), seat, pass);
    let (worker, reader, answered) = serve_beside(rt, &filer, worker, reader, &mut mail);
    let left = leave(rt, &filer, worker, reader);
    (answered, close(filer, left))
}

/// Each message that two threads put at once is answered or left, once, and the messages of each
/// are answered and left in the order in which it put them.
#[test]
fn two_threads_put_at_once(rt: HostRuntime) {
    let (mut xids, ended) = served(&rt);
    assert_eq!(&rt; ended.kept.len(), 0);
    add_xids(&rt, &mut xids, &ended.waiting);
    assert_eq!(&rt; xids.len(), END as usize);
    has_all(&rt, &xids, 0, SECOND);
    has_all(&rt, &xids, SECOND, END);
}
