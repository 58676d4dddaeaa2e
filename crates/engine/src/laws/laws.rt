//! What follows from the definitions. The functions do nothing: their contracts are theorems.

ghost use Rattle.engine.specs.laws.Laws.{CallsAgree, WorkIsTheModels};

use filer_state::laws::parts_partition;

/// Calls that run at one time don't disturb each other, whatever they are: the server is the one
/// after the finished calls and those that were worked, finishing gives what each was worked to,
/// and block parts partition every volume.
pub fn calls_agree<P, C, R>()
    ensures { CallsAgree P C R }
{
    parts_partition();
}

/// A message that is worked on what its worker was lent comes to what the model says: a move, a
/// starved call, or the serial server's reply, with the server and the parts after it.
pub fn work_is_the_models<P, C, R>()
    ensures { WorkIsTheModels P C R }
{}
