//! The loop of a lane's thread.

ghost use Rattle.filer_lanes.specs.Lanes.{Stays};

use crate::round::round;
use crate::socket::Socket;
use crate::station::Station;
use crate::stopping::heed_stop;
use lanes::Lane;
use std::rt::Clock;
use std::sync::Wait;

/// Runs a lane, round for round, until its thread is told to stop.
pub(crate) fn run_rounds<R: Wait + Clock>(
    rt: &R,
    lane: Lane<Socket, R>,
    station: Station,
) -> Lane<Socket, R>
    ensures { Stays lane result }
{
    let mut lane = lane;
    let mut station = station;
    for _ in rt.forever() {
        if station.mailbox.is_stopped() {
            break;
        }
        round(rt, &mut lane, &mut station);
        heed_stop(rt, &mut lane, &mut station);
    }
    lane
}
