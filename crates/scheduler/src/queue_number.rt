//! The queue of a node at which calls run, by number.

ghost use Rattle.std.specs.Prelude.{◌≡◌, ◌+◌, ◌*◌, ◌<◌};
ghost use Rattle.affinity.specs.Affinity.{call_node};
ghost use Rattle.scheduler.specs.QueueNumber.{queue_of, HasQueue};

use affinity::CallNode;

/// As many queues as the largest layout has nodes: 8 volumes of 35 in 2 aggregates. Those of block
/// numbers and their ranges stay empty, since no call runs there.
pub(crate) const QUEUES: usize = 283;

/// The queues of a volume: itself, its names, its block numbers, 16 stripes and 16 ranges.
const VOLUME_QUEUES: usize = 35;

/// The number of a volume's first queue.
fn volume_queue(volume: u32) -> usize
    requires { volume < 8 }
    ensures { result ≡ 3 + 35 * volume }
{
    3 + VOLUME_QUEUES * volume as usize
}

/// The number of the queue of a node, in constant time.
pub(crate) fn queue_of(affinity: CallNode) -> usize
    requires { HasQueue (call_node affinity) }
    ensures number { result ≡ queue_of (call_node affinity) }
    ensures within { result < 283 }
{
    match affinity {
        CallNode::Serial => 0,
        CallNode::Aggregate(aggregate) => 1 + aggregate as usize,
        CallNode::Volume(volume) => volume_queue(volume),
        CallNode::Logical(volume) => volume_queue(volume) + 1,
        CallNode::Stripe { volume, stripe } => volume_queue(volume) + 3 + stripe as usize,
    }
}
