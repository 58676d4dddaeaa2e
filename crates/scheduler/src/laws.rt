//! What holds of queues. The function does nothing: its contract is a theorem.

ghost use Rattle.std.specs.Prelude.{◌≡◌, None};
ghost use Rattle.nfs_model.specs.Tree.{Affinity, Layout};
ghost use Rattle.affinity.specs.Fault.{fault_of};
ghost use Rattle.affinity.specs.Tree.{IsNode};
ghost use Rattle.scheduler.specs.QueueNumber.{HasQueue};

use affinity::laws::lawful_layouts_are_small;

/// Each node of a layout that breaks no rule has a queue.
pub fn nodes_have_queues()
    ensures { (layout : Layout) (a : Affinity)
        → fault_of layout ≡ None
        → IsNode layout a
        → HasQueue a }
{
    lawful_layouts_are_small();
}
