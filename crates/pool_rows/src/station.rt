//! A worker at its station, in one thread.

ghost use Rattle.depot.specs.Words.{view, splits_left, IsSeatHere};
ghost use Rattle.turns.specs.Words.{IsIn};
ghost use Rattle.pool_rows.specs.Threads.{IsStill, IsUnstarted};

use crate::calls::Ask;
use crate::mail::{Mail, open_mail};
use crate::putting::{FilerPass, put_all};
use affinity::Affinity;
use depot::Seat;
use granted_calls::{Filer, Gate, Turn};
use nfs_values::Moment;
use std::marker::Model;
use std::process::Abort;
use std::sync::Wait;
use turns::{Service, Tend, TendRefusal, Worker};

/// A worker of a filer, with the passes of who puts messages and takes replies beside it.
#[derive(Drop)]
pub(crate) struct Station<'a> {
    pub(crate) filer: &'a Filer,
    pub(crate) worker: Worker,
    pub(crate) reader: FilerPass,
    pub(crate) mail: Mail,
}

impl<'a> Model for Station<'a> {
    ghost use Rattle.std.specs.Prelude.{ℕ};
    ghost use Rattle.pool_rows.specs.Threads.{IsReaderOf};
    ghost use Rattle.turns.specs.Words.{seats_in, IsIn};

    ghost Value = { ℕ };

    ghost view = { λ s. seats_in s.worker };

    ghost invariant = { λ s. IsIn s.filer.now s.worker × IsReaderOf s.filer.now s.reader };
}

/// What came of a turn or a tend.
#[derive(Clone, Copy, Debug, PartialEq)]
pub(crate) enum Came {
    /// The call of this xid is finished, and its reply was put.
    Done(u32),
    Moved,
    Busy(Affinity, u64),
    Worn,
    Idle,
    /// A tend moved this many blocks.
    Blocks(u32),
    /// A tend was refused for the reason of this number.
    Refused(u32),
}

/// Both stations of a filer that was opened.
pub(crate) fn open_pair<'a, R: Abort + AllocGlobal + Wait>(
    rt: &R,
    filer: &'a Filer,
    seat: Seat<Service>,
    pass: FilerPass,
    reader: FilerPass,
) -> (Station<'a>, Station<'a>)
    requires seat { IsSeatHere filer.now.depot seat }
    requires opened { IsUnstarted filer.now (view seat) (splits_left seat) pass reader }
{
    let (mail, lent) = open_mail(rt);
    let other_mail = Mail {
        outboxes: mail.outboxes.clone().expect(rt, "no memory"),
        pass: lent,
        connection: mail.connection,
    };
    let (reader, other_reader) = filer.waiting().split_pass(reader);
    let (worker, other) = Worker::start(filer, filer.waiting(), seat, pass).split(filer);
    let first = Station {
        filer,
        worker,
        reader,
        mail,
    };
    let second = Station {
        filer,
        worker: other,
        reader: other_reader,
        mail: other_mail,
    };
    (first, second)
}

/// A turn of a worker at a moment of whole seconds. Its answer is put.
pub(crate) fn turn<R: Wait, G: Gate>(
    rt: &R,
    filer: &Filer,
    worker: &mut Worker,
    mail: &mut Mail,
    gate: &G,
    seconds: u32,
) -> Came
    requires { IsIn filer.now worker.old }
    ensures { IsStill filer.now worker.old worker.new }
{
    let moment = Moment {
        seconds,
        nanoseconds: 0,
    };
    let turned = worker.turn_in(filer, filer.waiting(), rt, gate, moment);
    match turned {
        Turn::Done(answer) => {
            let came = Came::Done(answer.xid());
            mail.put(rt, answer);
            came
        }
        Turn::Moved => Came::Moved,
        Turn::Busy { node, word } => Came::Busy(node, word),
        Turn::Worn => Came::Worn,
        Turn::Idle => Came::Idle,
    }
}

impl Station<'_> {
    /// Puts a message for each of these xids.
    pub(crate) fn put<R: Abort + AllocGlobal + Wait>(
        &mut self,
        rt: &R,
        from: u32,
        until: u32,
        ask: Ask,
    ) {
        let connection = self.mail.connection;
        put_all(
            rt,
            self.filer,
            &mut self.reader,
            connection,
            from,
            until,
            ask,
        );
    }

    /// A turn at a moment of whole seconds. Its answer is put.
    pub(crate) fn turn<R: Wait, G: Gate>(&mut self, rt: &R, gate: &G, seconds: u32) -> Came {
        turn(
            rt,
            self.filer,
            &mut self.worker,
            &mut self.mail,
            gate,
            seconds,
        )
    }

    /// A tend.
    pub(crate) fn tend(&mut self, tend: Tend) -> Came {
        match self.worker.tend_in(self.filer, self.filer.waiting(), tend) {
            Ok(tended) => Came::Blocks(tended.count()),
            Err(TendRefusal::Busy { node, word }) => Came::Busy(node, word),
            Err(refusal) => Came::Refused(refusal.number()),
        }
    }
}
