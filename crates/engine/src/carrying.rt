//! What workers carry between the parts of a volume.

ghost use Rattle.std.specs.Prelude.{◌≡◌, ◌&&◌, length, map, nat_lt, slice_get};
ghost use Rattle.nfs_model.specs.Events.Refusals as event;
ghost use Rattle.engine_feed.specs.Seen.{layout_in};
ghost use Rattle.engine.specs.Seen.{worker_seen};
ghost use Rattle.engine.specs.Sound.{IsSoundEngine};
ghost use Rattle.engine.specs.Words.{DoesEvent, HasItsSetup};

use crate::event::{Done, Refusal};
use crate::inner::{Asked, count_free, tend};
use crate::state::{RANGES, State};
use crate::worker::{Worker, has_empty_hand, is_idle};
use engine_feed::Calls;
use nfs_values::VolumeNumber;

/// Whether a worker is there, runs nothing and carries nothing.
fn is_free(workers: &[Worker], worker: usize) -> bool
    ensures { let at = slice_get (map worker_seen workers.now) worker in
        result ≡ (event.is_idle at && event.has_empty_hand at) }
{
    is_idle(workers, worker) && has_empty_hand(workers, worker)
}

/// Whether a volume is there.
fn has_volume(calls: &Calls, volume: VolumeNumber) -> bool
    ensures { result ≡ nat_lt volume.0 (length (layout_in calls.now).volumes) }
{
    (volume.0 as usize) < calls.layout().volume_count()
}

/// Free blocks of a range, up to 64 and the lowest first, come into the empty hand of an idle
/// worker.
pub(crate) fn fetch(
    state: &mut State,
    worker: usize,
    volume: VolumeNumber,
    range: u32,
) -> Result<Done, Refusal>
    requires { IsSoundEngine state.old }
    ensures events { DoesEvent state.old (event.Fetch worker volume.0 range) result state.new }
    ensures setup { HasItsSetup state.old state.new }
    ensures sound { IsSoundEngine state.new }
{
    if !is_free(&state.workers, worker) {
        return Err(Refusal::WorkerBusy);
    }
    if !has_volume(&state.calls, volume) {
        return Err(Refusal::NoSuchRange);
    }
    if range >= RANGES {
        return Err(Refusal::NoSuchRange);
    }
    tend(state, worker, Asked::Fetch { volume, range })
}

/// Blocks that files have left, up to 64 of one range, come into the empty hand of an idle worker.
pub(crate) fn cull(state: &mut State, worker: usize, volume: VolumeNumber) -> Result<Done, Refusal>
    requires { IsSoundEngine state.old }
    ensures events { DoesEvent state.old (event.Cull worker volume.0) result state.new }
    ensures setup { HasItsSetup state.old state.new }
    ensures sound { IsSoundEngine state.new }
{
    if !is_free(&state.workers, worker) {
        return Err(Refusal::WorkerBusy);
    }
    if !has_volume(&state.calls, volume) {
        return Err(Refusal::NoSuchRange);
    }
    tend(state, worker, Asked::Cull { volume })
}

/// What an idle worker carries is put down: free blocks come into the stock of their volume, dead
/// ones are free again in their range.
pub(crate) fn put_down(state: &mut State, worker: usize) -> Result<Done, Refusal>
    requires { IsSoundEngine state.old }
    ensures events { DoesEvent state.old (event.PutDown worker) result state.new }
    ensures setup { HasItsSetup state.old state.new }
    ensures sound { IsSoundEngine state.new }
{
    if !is_idle(&state.workers, worker) {
        return Err(Refusal::WorkerBusy);
    }
    tend(state, worker, Asked::PutDown)
}

/// Tells how many blocks of each range in use are free, to an idle worker with an empty hand.
pub(crate) fn survey(
    state: &mut State,
    worker: usize,
    volume: VolumeNumber,
) -> Result<Done, Refusal>
    requires { IsSoundEngine state.old }
    ensures events { DoesEvent state.old (event.Survey worker volume.0) result state.new }
    ensures setup { HasItsSetup state.old state.new }
    ensures sound { IsSoundEngine state.new }
{
    if !is_free(&state.workers, worker) {
        return Err(Refusal::WorkerBusy);
    }
    if !has_volume(&state.calls, volume) {
        return Err(Refusal::NoSuchRange);
    }
    count_free(state, worker, volume)
}
