//! Messages that workers begin.

ghost use Rattle.nfs_model.specs.Events.Refusals as event;
ghost use Rattle.nfs_values.specs.Moment.{moment_of};
ghost use Rattle.engine.specs.Sound.{IsSoundEngine};
ghost use Rattle.engine.specs.Words.{DoesEvent, HasItsSetup};

use crate::event::{Done, Refusal};
use crate::lending::lend;
use crate::state::{SECOND, State};
use crate::worker::{Running, WorkerRun, is_idle, set_run};
use desk::BeginRefusal as Refused;
use nfs_values::Moment;

/// Begins the message at a place of the list: its worker is lent what it runs on.
pub(crate) fn begin(
    state: &mut State,
    worker: usize,
    place: usize,
    moment: Moment,
) -> Result<Done, Refusal>
    requires { IsSoundEngine state.old }
    ensures events { DoesEvent state.old (event.Begin worker place (moment_of moment)) result
        state.new }
    ensures setup { HasItsSetup state.old state.new }
    ensures sound { IsSoundEngine state.new }
{
    if !is_idle(&state.workers, worker) {
        return Err(Refusal::WorkerBusy);
    }
    let Some(affinity) = state.calls.affinity_at(place) else {
        return Err(Refusal::NoSuchCall);
    };
    if moment.nanoseconds >= SECOND {
        return Err(Refusal::BadMoment);
    }
    match lend(&mut state.desk, worker, affinity) {
        Err(Refused::Taken) => Err(Refusal::Busy),
        Err(Refused::Worn) => Err(Refusal::Worn),
        Ok(()) => {
            let message = match state.calls.begin(place) {
                Ok(message) => message,
                Err(_) => unreachable!(),
            };
            set_run(
                &mut state.workers,
                worker,
                WorkerRun::Begun(Running { message, moment }),
            );
            Ok(Done::Granted { affinity })
        }
    }
}
