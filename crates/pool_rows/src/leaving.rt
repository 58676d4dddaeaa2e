//! What the only worker of a filer leaves without threads: a batch in its hand.

ghost use Rattle.pool_rows.specs.Threads.{IsAlone};
ghost use Rattle.tends.specs.Gathered.{IsLeftOf};

use crate::calls::{Ask, ROOT};
use crate::opening::{Opened, open};
use crate::putting::{FilerPass, put};
use filer_state::Files;
use granted_calls::Filer;
use nfs_values::{BlockNumber, ConnectionNumber, VolumeNumber};
use parcels::{Hand, SerialHeld};
use std::process::Abort;
use std::sync::Wait;
use tends::{Ended, Left, Room, close, gather};
use turns::{BatchInHand, Tend, Worker};

/// Gathers what the only worker of a filer leaves.
pub(crate) fn leave<R: Abort + AllocGlobal + Wait>(
    rt: &R,
    filer: &Filer,
    worker: Worker,
    reader: FilerPass,
) -> Left
    requires { IsAlone filer.now worker reader }
    ensures { IsLeftOf filer.now result }
{
    let workers = vec![in rt.alloc(); worker].expect(rt, "no memory");
    let passes = vec![in rt.alloc(); reader].expect(rt, "no memory");
    let room = Room::new(rt.alloc()).expect(rt, "no memory");
    gather(filer, rt, workers, passes, room)
}

/// A filer whose only worker has fetched, while two messages wait, and which is then closed.
fn fetched<R: Abort + AllocGlobal + Wait>(rt: &R) -> Ended {
    let Opened {
        filer,
        seat,
        pass,
        mut reader,
    } = open(rt);
    let mut worker = Worker::start(&filer, filer.waiting(), seat, pass);
    let ask = Ask::Attributes(0, ROOT);
    put(rt, &filer, &mut reader, ConnectionNumber(0), 1, ask);
    put(rt, &filer, &mut reader, ConnectionNumber(0), 2, ask);
    let fetch = Tend::Fetch {
        volume: VolumeNumber(0),
        range: 0,
    };
    let _answer = worker.tend_in(&filer, filer.waiting(), fetch);
    let left = leave(rt, &filer, worker, reader);
    close(filer, left)
}

/// How many block numbers of volume 0's range are free.
fn free_of(parcels: &SerialHeld<Files>) -> Option<usize> {
    let aggregate = parcels.aggregates.at[0].as_ref()?;
    let volume = aggregate.volumes.at[0].as_ref()?;
    let range = volume.vbn.ranges.at[0].as_ref()?;
    Some(range.own.get().free_count())
}

/// How many free blocks of volume 0 are in a hand, and the first and the last of them.
fn held_in(hand: &BatchInHand) -> Option<(usize, BlockNumber, BlockNumber)> {
    match hand.hand() {
        Hand::Empty => None,
        Hand::Fresh { volume: _, batch } => {
            let blocks = batch.as_slice();
            Some((batch.len(), *blocks.first()?, *blocks.last()?))
        }
        Hand::Dead { .. } => None,
    }
}

/// 64 blocks that a worker has fetched are left in its hand, and the others are free. The messages
/// that nobody picked are left in their order.
#[test]
fn a_batch_is_left(rt: HostRuntime) {
    let ended = fetched(&rt);
    let hand = ended.hands.first().and_then(held_in);
    assert_eq!(&rt; hand, Some((64, BlockNumber(0), BlockNumber(63))));
    assert_eq!(&rt; free_of(&ended.parcels), Some(960));
    assert_eq!(&rt; (ended.hands.len(), ended.kept.len()), (1, 0));
    assert_eq!(&rt; ended.waiting.len(), 2);
    assert_eq!(&rt; ended.waiting[0].origin().xid, 1);
}
