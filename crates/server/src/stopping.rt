//! What a lane's thread does once its server was asked to stop.

ghost use Rattle.filer_lanes.specs.Lanes.{Stays};

use crate::closing::{close_all, close_ended};
use crate::keys::list;
use crate::seconds::second_now;
use crate::socket::Socket;
use crate::station::Station;
use connections::Flags;
use lanes::Lane;
use nfs_values::Procedure;
use statistics::ReplyKind;
use std::rt::Clock;
use std::sync::Wait;
use std::time::Duration;

/// How long a lane without a message pauses between its rounds, in milliseconds.
const PAUSE: u64 = 2;

/// Whether a lane answered a call that asks to stop.
fn was_asked<R>(lane: &Lane<Socket, R>) -> bool {
    lane.at_once().of(ReplyKind::Answered(Procedure::Stop)) > 0
}

/// Nothing more is read of the socket of a key's connection, which is looked at in the next round.
fn end_reading<R>(lane: &mut Lane<Socket, R>, station: &mut Station, key: usize)
    ensures { Stays lane.old lane.new }
{
    if let Some(connection) = lane.connection(key) {
        let flags = Flags {
            has_ended: true,
            ..connection.flags()
        };
        lane.set_flags(key, flags);
        list(lane, &mut station.keys, key);
    }
}

/// Nothing more is read of connections with a peer.
fn end_all_reading<R>(lane: &mut Lane<Socket, R>, station: &mut Station)
    ensures { Stays lane.old lane.new }
{
    for key in 0..station.guests.len() {
        if station.guests.at(key).peer.is_some() {
            end_reading(lane, station, key);
        }
    }
}

/// Asks that the server stops, where this lane answered the call for it. Once no connection is
/// accepted any more nothing more is read, and connections are closed whose replies all went out;
/// and the others too where it was waited for long enough. What the clerk asks is still answered.
pub(crate) fn heed_stop<R: Wait + Clock>(rt: &R, lane: &mut Lane<Socket, R>, station: &mut Station)
    ensures { Stays lane.old lane.new }
{
    let Some(word) = &station.common.stop else {
        return;
    };
    if was_asked(lane) {
        word.ask();
    }
    let Some(until) = word.until() else {
        return;
    };
    end_all_reading(lane, station);
    if u64::from(second_now(rt)) > until {
        close_all(lane, station, rt);
    } else {
        close_ended(lane, station, rt);
    }
    if lane.waiting() == 0 {
        rt.sleep(Duration::from_millis(PAUSE));
    }
    station.mailbox.wake();
}
