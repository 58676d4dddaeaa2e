//! A round of a lane's thread.

ghost use Rattle.std.specs.Prelude.{IfNone};
ghost use Rattle.filer_lanes.specs.Lanes.{IsAtRest, Stays};

use crate::closing::{close_ended, close_idle};
use crate::counting::count_round;
use crate::hearing::hear;
use crate::lane_tends::{begin_anew, may_rest, put_down, tend};
use crate::seconds::second_now;
use crate::socket::Socket;
use crate::station::Station;
use crate::turning::run_calls;
use crate::visits::{any_is_due, open, read_all, read_doubted, write_all};
use lanes::Lane;
use nfs_values::Moment;
use std::rt::Clock;
use std::sync::Wait;
use std::time::Duration;

/// How long a lane waits until it tends again where calls were finished, in milliseconds.
const UNTENDED: u64 = 1;

/// How long it waits until it tries again to put down what is in its hand, for which there was no
/// memory, in milliseconds.
const STARVED: u64 = 100;

/// How long the next poll waits: not at all where there is something to do, and without an end
/// only after tends over all volumes and ranges moved nothing, with nothing in the hand.
fn longest_wait<R>(lane: &Lane<Socket, R>, station: &Station) -> Option<Duration>
    ensures { IfNone result (IsAtRest lane.now station.now.pace.tending) }
{
    if station.is_writing || lane.waiting() > 0 {
        return Some(Duration::ZERO);
    }
    let (keys, owed) = (&station.keys, &station.common.owed);
    if !may_rest(lane, &station.pace) || any_is_due(lane, keys, owed, station.share) {
        return Some(Duration::ZERO);
    }
    if !lane.worker().has_empty_hand() {
        station.common.untended.leave();
        return Some(Duration::from_millis(STARVED));
    }
    if station.common.untended.is_left() {
        return Some(Duration::from_millis(UNTENDED));
    }
    None
}

/// Waits until something is to be done, and notes what is told of the sockets. It doesn't sleep
/// while a connection is in doubt. Answers whether it went on for these alone.
fn wait<R: Wait + Clock>(rt: &R, lane: &mut Lane<Socket, R>, station: &mut Station) -> bool
    ensures { Stays lane.old lane.new }
{
    let longest = longest_wait(lane, station);
    if longest != Some(Duration::ZERO) && read_doubted(lane, station) {
        return true;
    }
    match station.poll.poll(&mut station.events, longest) {
        Ok(()) => {
            for event in &station.events {
                hear(lane, &mut station.keys, event);
            }
        }
        // It isn't known of any reason. The lane goes on as if nothing was told.
        Err(_failed) => rt.sleep(Duration::from_millis(UNTENDED)),
    }
    false
}

/// Opens connections of the streams that were left, if some were, in a second.
fn take_mail<R: Wait>(lane: &mut Lane<Socket, R>, station: &mut Station, rt: &R, now: u32)
    ensures { Stays lane.old lane.new }
{
    let left = station.mailbox.left();
    if left == station.seen {
        return;
    }
    station.seen = left;
    station.mailbox.take(rt, &mut station.mail);
    for _ in 0..station.mail.len() {
        if let Some(arrival) = station.mail.pop() {
            open(lane, station, rt, arrival, now);
        }
    }
}

/// Takes what was left and reads each listed connection once, in a round that began at a moment and
/// in a second. Answers how many messages wait then.
fn read_round<R: Wait>(
    lane: &mut Lane<Socket, R>,
    station: &mut Station,
    rt: &R,
    moment: Moment,
    second: u32,
) -> usize
    ensures { Stays lane.old lane.new }
{
    take_mail(lane, station, rt, second);
    let before = lane.waiting();
    read_all(lane, station, second);
    let waiting = lane.waiting();
    if let Some(counting) = &mut station.counting {
        counting.put(moment, waiting.saturating_sub(before));
    }
    waiting
}

/// Counts what was finished in a round, where that is told: of this many messages that waited once
/// it had read, at a moment at which it began.
fn count<R: Clock>(
    lane: &Lane<Socket, R>,
    station: &mut Station,
    rt: &R,
    waited: usize,
    begun: Moment,
) {
    let (Some(counting), Some(counter)) = (
        &mut station.counting,
        station.common.counter(lane.index()),
    ) else {
        return;
    };
    let ended = station.pace.time(rt);
    count_round(lane, counting, &counter, waited, begun, ended);
}

/// A round: what the sockets tell and what was left is taken, each listed connection is read once,
/// calls are run, with tends between them where a stock fell short, the replies of each listed
/// connection are written once, and then the lane tends once if no message waits, unless it went on
/// for connections in doubt alone. Where others wait for a place, idle connections are closed.
pub(crate) fn round<R: Wait + Clock>(rt: &R, lane: &mut Lane<Socket, R>, station: &mut Station)
    ensures { Stays lane.old lane.new }
{
    let is_doubting = wait(rt, lane, station);
    station.pace.patience.give_way(rt);
    let (moment, second) = (station.pace.time(rt), second_now(rt));
    let waiting = read_round(lane, station, rt, moment, second);
    if waiting == 0 && !is_doubting {
        begin_anew(&mut station.pace, &station.common, moment);
    }
    let is_idle = run_calls(rt, lane, &mut station.pace, &station.common, moment);
    station.is_writing = write_all(lane, station, second);
    count(lane, station, rt, waiting, moment);
    close_ended(lane, station, rt);
    close_idle(lane, station, rt, second);
    if !is_idle {
        put_down(lane, &mut station.pace);
    } else if !is_doubting {
        begin_anew(&mut station.pace, &station.common, moment);
        tend(lane, &mut station.pace);
    }
}
