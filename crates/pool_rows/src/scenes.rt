//! Scenes of two workers. Replies are typed from the standard: results of RFC 1813 section 3.3.

use crate::calls::{Ask, ROOT};
use crate::rows::Row;
use crate::scene::{Scene, run};
use crate::station::Came;
use affinity::Affinity;

/// The node of volume 0's names.
const NAMES: Affinity = Affinity::VolumeLogical(0);

/// While a worker has the names of a volume, another is refused by the word of their node, in a
/// turn and in a tend; after it, both are done, and no message waits.
const REFUSED: Scene = Scene {
    before: &[&[Row::Put(1, 3, Ask::Attributes(0, ROOT))]],
    turn: (4, Came::Done(1)),
    midst: &[
        Row::Turn(9, Came::Busy(NAMES, 1 << 32)),
        Row::Cull(0, Came::Busy(NAMES, 1 << 32)),
    ],
    second: &[
        Row::Turn(5, Came::Done(2)),
        Row::Cull(0, Came::Blocks(0)),
        Row::Turn(6, Came::Idle),
    ],
    first: &[Row::Turn(7, Came::Idle)],
};

#[test]
fn two_workers(rt: HostRuntime) {
    run(&rt, &REFUSED);
}

/// File 2 of volume 0 is made.
const MADE: [Row; 3] = [
    Row::Put(1, 2, Ask::Create(0, 0)),
    Row::Turn(1, Came::Done(1)),
    Row::Skip,
];

/// The results of a WRITE of one byte, FILE_SYNC, under a verifier of nines.
const WRITTEN: [u32; 7] = [0, 0, 0, 1, 2, 0x0909_0909, 0x0909_0909];

/// Blocks that are fetched come to the stock, where a WRITE takes one, and blocks that a file has
/// left are free again. No batch comes into a hand that has one, from a range that isn't in use or
/// isn't there, nor from a volume that isn't there.
const TENDED: Scene = Scene {
    before: &[
        &MADE,
        &[
            Row::Fetch(0, 0, Came::Blocks(64)),
            Row::Fetch(0, 0, Came::Refused(33)),
            Row::Cull(0, Came::Refused(33)),
            Row::PutDown(Came::Blocks(64)),
            Row::PutDown(Came::Refused(34)),
            Row::Cull(0, Came::Blocks(0)),
            Row::Fetch(0, 1, Came::Refused(41)),
            Row::Fetch(1, 1, Came::Blocks(64)),
            Row::PutDown(Came::Blocks(64)),
            Row::Fetch(0, 16, Came::Refused(41)),
            Row::Fetch(2, 0, Came::Refused(41)),
            Row::Cull(2, Came::Refused(41)),
            Row::Put(2, 3, Ask::Write(0, 2, 0, 1, 0x61)),
            Row::Turn(2, Came::Moved),
            Row::Turn(2, Came::Done(2)),
            Row::Reply(52, 2, &WRITTEN),
            Row::Put(3, 4, Ask::Remove(0, 0)),
        ],
    ],
    turn: (3, Came::Done(3)),
    midst: &[],
    second: &[Row::Cull(1, Came::Blocks(0)), Row::Cull(0, Came::Blocks(1))],
    first: &[Row::Cull(0, Came::Blocks(0))],
};

#[test]
fn tends(rt: HostRuntime) {
    run(&rt, &TENDED);
}

/// The queue has as many messages as it has room for: first a WRITE that extends a file.
const FILLED: [Row; 2] = [
    Row::Put(2, 3, Ask::Write(0, 2, 0, 1, 0x61)),
    Row::Put(3, 1026, Ask::Attributes(1, ROOT)),
];

/// A message for which the queue has no place again, since another was put in the midst of its
/// turn, is kept, and tried until it is finished; only then another is picked.
const KEPT: Scene = Scene {
    before: &[&MADE, &FILLED],
    turn: (2, Came::Moved),
    midst: &[Row::Put(1026, 1027, Ask::Attributes(1, ROOT))],
    second: &[],
    first: &[
        Row::Keeps(true),
        Row::Turn(2, Came::Moved),
        Row::Keeps(true),
        Row::Turn(2, Came::Done(2)),
        Row::Keeps(false),
        Row::Reply(52, 2, &WRITTEN),
        Row::Turn(2, Came::Done(3)),
    ],
};

#[test]
fn a_kept_message_is_tried_first(rt: HostRuntime) {
    run(&rt, &KEPT);
}

/// The first byte of the file's second span, which lies in another stripe than the first span.
const SPAN: u64 = 262_144;

/// The first block of each span is filled. Each WRITE moves twice, from its stripe to Volume
/// Logical and, since that has no stock, to Volume.
const SPANS: [Row; 10] = [
    Row::Put(2, 3, Ask::Write(0, 2, 0, 1, 0x61)),
    Row::Turn(1, Came::Moved),
    Row::Turn(1, Came::Moved),
    Row::Turn(1, Came::Done(2)),
    Row::Reply(52, 2, &WRITTEN),
    Row::Put(3, 4, Ask::Write(0, 2, SPAN, 1, 0x62)),
    Row::Turn(1, Came::Moved),
    Row::Turn(1, Came::Moved),
    Row::Turn(1, Came::Done(3)),
    Row::Reply(52, 3, &WRITTEN),
];

/// The overwrite of each span.
const FIRST: Ask = Ask::Write(0, 2, 0, 1, 0x63);

const SECOND: Ask = Ask::Write(0, 2, SPAN, 1, 0x64);

/// The file's attributes after both overwrites (fattr3, RFC 1813 section 2.5): its size, two
/// blocks, and the later of both moments: the one that began before the other runs a nanosecond
/// after it, since its clock is behind.
const SHOWN: [u32; 22] = [
    0, 1, 0o644, 1, 65_534, 65_534, 0, 262_145, 0, 8_192, 0, 0, 0, 0, 0, 2, 1, 0, 9, 1, 9, 1,
];

/// Both are answered, that of the second worker first, and then the file is asked for.
const OVERWRITTEN: [Row; 11] = [
    Row::Reply(52, 5, &WRITTEN),
    Row::Reply(52, 4, &WRITTEN),
    Row::Put(6, 7, Ask::Attributes(0, 2)),
    Row::Turn(10, Came::Done(6)),
    Row::Reply(112, 6, &SHOWN),
    Row::Put(7, 8, Ask::Read(0, 2, 0, 1)),
    Row::Turn(10, Came::Done(7)),
    Row::Reply(48, 7, &[0, 0, 1, 0, 1, 0x6300_0000]),
    Row::Put(8, 9, Ask::Read(0, 2, SPAN, 1)),
    Row::Turn(10, Came::Done(8)),
    Row::Reply(48, 8, &[0, 0, 1, 1, 1, 0x6400_0000]),
];

/// The held stripe has a share in the word of the node above it, by which a cull is refused.
const CULLED: Row = Row::Cull(0, Came::Busy(NAMES, 1));

/// The second overwrite begins and ends in the midst of the first, whose clock is behind.
const IN_ORDER: Scene = Scene {
    before: &[
        &MADE,
        &SPANS,
        &[Row::Put(4, 5, FIRST), Row::Put(5, 6, SECOND)],
    ],
    turn: (5, Came::Done(4)),
    midst: &[Row::Turn(9, Came::Done(5)), CULLED],
    second: &[],
    first: &OVERWRITTEN,
};

/// The first in the midst of the second.
const TURNED_ROUND: Scene = Scene {
    before: &[
        &MADE,
        &SPANS,
        &[Row::Put(4, 5, SECOND), Row::Put(5, 6, FIRST)],
    ],
    turn: (5, Came::Done(4)),
    midst: &[Row::Turn(9, Came::Done(5)), CULLED],
    second: &[],
    first: &OVERWRITTEN,
};

/// Two stripes of a file are held at once, and written over in either order: the file is the same.
#[test]
fn overwrites_in_either_order(rt: HostRuntime) {
    run(&rt, &IN_ORDER);
    run(&rt, &TURNED_ROUND);
}
