//! The key of a queue.

ghost use Rattle.std.specs.Prelude.{◌≡◌, Some, None};
ghost use Rattle.crossbeam_queue.specs.Passes.{view, IsPassOf};
ghost use Rattle.granted_calls.specs.shared_waiting.Balance.{keyed, IsWhole};

use crate::shared_waiting::view::{Fair, Fitting, Named, Naming, View};
use crossbeam_queue::RuledArrayQueue;

/// Fixes the key, by the only pass.
pub(crate) fn name_as<T: Fitting<K>, K, J: Named<K>>(
    queue: &RuledArrayQueue<T, View<T, K>, Fair>,
    seat: &mut crossbeam_queue::Pass<T, View<T, K>>,
    key: &K,
)
    requires of { IsPassOf queue.now seat.old }
    requires whole { IsWhole (view seat.old) }
    requires none { (view seat.old).key ≡ None }
    requires named { J.name ≡ Some key.now }
    ensures of { seat.new.table_id ≡ seat.old.table_id }
    ensures home { seat.new.me.1 ≡ seat.old.me.1 }
    ensures keyed { view seat.new ≡ keyed (Some key.now) (view seat.old) }
{
    let _spent = queue.another::<Naming<J>>(seat);
}
