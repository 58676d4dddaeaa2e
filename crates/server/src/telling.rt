//! The metrics of a server.

use crate::inquiry::Asked;
use crate::seconds::second_now;
use crate::traffic::Traffic;
use metrics::{Measured, VolumeUse, exposition};
use metrics_server::Teller;
use server_options::Peers;
use statistics::{Tally, Totals};
use std::alloc::Global;
use std::net::{IpAddr, Net, TcpListener, TcpStream};
use std::rt::Clock;
use std::sync::{Arc, Wait};

/// How many seconds metrics wait for an answer.
pub(crate) const PATIENCE: u64 = 1;

/// The seconds within which the server isn't asked again. They are counted without their parts.
const APART: u32 = 5;

/// What is told of a server, and what its volumes were when it was asked last.
#[derive(Drop)]
pub(crate) struct Telling<'a, R> {
    asked: Asked<'a, R>,
    peers: Peers,
    volumes: Option<Vec<VolumeUse>>,
    /// The second in which it was asked last, if it was.
    last: Option<u32>,
}

impl<'a, R> Telling<'a, R> {
    /// Nothing was asked.
    pub(crate) fn new(asked: Asked<'a, R>, peers: Peers) -> Telling<'a, R> {
        Telling {
            asked,
            peers,
            volumes: None,
            last: None,
        }
    }
}

impl<R> Telling<'_, R>
where
    R: Wait + Clock + Net<Listener = TcpListener, Stream = TcpStream>,
{
    /// Asks the server what its volumes have, unless it was asked a moment ago.
    fn refresh(&mut self) {
        let now = second_now(self.asked.rt);
        let is_fresh = match self.last {
            Some(last) => now.saturating_sub(last) <= APART,
            None => false,
        };
        if !is_fresh {
            self.volumes = self.asked.ask();
            self.last = Some(second_now(self.asked.rt));
        }
    }
}

/// What all lanes counted so far, and the microseconds of all timed calls.
fn counted_in(tallies: &[Tally]) -> (Totals, u64) {
    let mut totals = Totals::new();
    let mut micros = 0u64;
    for tally in tallies {
        totals.add(tally);
        micros = micros.wrapping_add(tally.micros());
    }
    (totals, micros)
}

/// The bytes that all sockets gave and took so far.
fn moved_in(traffic: &[Arc<Traffic>]) -> (u64, u64) {
    let (mut received, mut sent) = (0u64, 0u64);
    for of_a_lane in traffic {
        received = received.wrapping_add(of_a_lane.received());
        sent = sent.wrapping_add(of_a_lane.sent());
    }
    (received, sent)
}

impl<R> Teller for Telling<'_, R>
where
    R: Wait + Clock + Net<Listener = TcpListener, Stream = TcpStream>,
{
    fn may_connect(&self, address: &IpAddr) -> bool {
        self.peers.has(address)
    }

    fn text(&mut self, alloc: Global) -> Option<Vec<u8>> {
        let common = &self.asked.mail.common;
        // before it is asked, which takes a connection
        let open = common.ends.open();
        let (totals, micros) = counted_in(&common.tallies);
        let (received, sent) = moved_in(&common.traffic);
        let (accepted, turned_away) = (common.arrivals.accepted(), common.arrivals.turned_away());
        self.refresh();
        let volumes = match &self.volumes {
            Some(volumes) => volumes.as_slice(),
            None => &[],
        };
        let measured = Measured {
            totals: &totals,
            micros,
            open,
            accepted,
            turned_away,
            received,
            sent,
            volumes,
        };
        exposition(alloc, &measured).ok()
    }
}
