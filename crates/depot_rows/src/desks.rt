//! Calls on nodes of each kind, and what other calls find in their midst.

use crate::trial::same;
use crate::turns::{Turn, numbers_left, open, take_turn};
use affinity::CallNode;

const STRIPE: CallNode = CallNode::Stripe {
    volume: 0,
    stripe: 2,
};

const OTHER_STRIPE: CallNode = CallNode::Stripe {
    volume: 0,
    stripe: 3,
};

/// A worker and where its call adds 5, another and what it asks for in the midst of that, and what
/// comes of both: the number of the second one's refusal, and the sum.
const ROWS: [(&str, [usize; 2], [CallNode; 2], Option<Turn>); 7] = [
    (
        "a volume beside its stripe",
        [2, 0],
        [STRIPE, CallNode::Volume(0)],
        Some((Some(21), Some(5))),
    ),
    (
        "two stripes",
        [2, 0],
        [STRIPE, OTHER_STRIPE],
        Some((None, Some(10))),
    ),
    (
        "the names of two volumes",
        [2, 0],
        [CallNode::Logical(0), CallNode::Logical(1)],
        Some((None, None)),
    ),
    (
        "a stripe beside its volume",
        [2, 0],
        [CallNode::Volume(0), STRIPE],
        Some((Some(21), None)),
    ),
    (
        "names beside their aggregate",
        [2, 0],
        [CallNode::Aggregate(0), CallNode::Logical(0)],
        Some((Some(21), None)),
    ),
    (
        "a stripe beside the root",
        [2, 0],
        [CallNode::Serial, STRIPE],
        Some((Some(21), None)),
    ),
    ("no such worker", [2, 3], [STRIPE, STRIPE], None),
];

#[test]
fn turns(rt: HostRuntime) {
    let mut desk = open(&rt, 3);
    for (row, workers, homes, wanted) in &ROWS {
        let turn = take_turn(&mut desk, *workers, *homes, 5);
        same(&rt, row, &turn, wanted);
    }
    let left = numbers_left(&rt, desk, 3);
    same(&rt, "left", &left, &Some([0, 0, 10]));
}
