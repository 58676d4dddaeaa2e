//! Connections: the bytes that came, and the bytes that were written.

use crate::calls::Calls;
use crate::feeding::feed;
use crate::state::ConnectionState;
use crate::stop::Stop;
use nfs_values::ConnectionNumber;
use rpc_msg::Offer;
use rpc_record::Reassembler;
use std::alloc::Global;
use std::marker::Model;

/// A connection that is open.
pub struct OpenConnection {
    pub(crate) state: ConnectionState,
}

// By hand, so that crates above have no proof of the drop of each of its parts.
impl Drop for OpenConnection {
    fn drop(self) {
        let OpenConnection { state: _ } = self;
    }
}

impl Model for OpenConnection {
    ghost use Rattle.engine_feed.specs.declared.state.ConnectionState.{ConnectionState};

    ghost Value = { ConnectionState };

    ghost use Rattle.engine_feed.specs.Sound.{IsSoundConnection};

    ghost view = { λ c. c.state };

    ghost invariant = { λ c. IsSoundConnection c.state };
}

impl OpenConnection {
    ghost use Rattle.std.specs.Prelude.{◌≡◌, ◌≤◌, is_none, length};
    ghost use Rattle.std.specs.List.{AllByRecursion};
    ghost use Rattle.nfs_model.specs.Events.Step.{new_connection};
    ghost use Rattle.rpc_msg.specs.declared.offer.Offer.{Offer as OfferSeen};
    ghost use Rattle.engine_feed.specs.Seen.{connection_of, owed_by, layout_in, messages_of};
    ghost use Rattle.engine_feed.specs.Sound.{IsAdmitted};
    ghost use Rattle.engine_feed.specs.Streams.{scan_stream};
    ghost use Rattle.engine_feed.specs.Words.{TakesInput, HasFed, Adds};

    /// A connection on which nothing came.
    pub fn new(alloc: Global) -> OpenConnection
        ensures new { connection_of result ≡ new_connection }
        ensures owed { owed_by result ≡ 0 }
        ensures takes { TakesInput result }
    {
        OpenConnection {
            state: ConnectionState {
                alloc,
                stream: Vec::new(alloc),
                reassembler: Reassembler::new(alloc),
                records: 0,
                fault: None,
                output: Vec::new(alloc),
                owed: 0,
            },
        }
    }

    /// Whether no fault was met, so that bytes are taken.
    pub fn takes_input(&self) -> bool
        ensures { (offer : OfferSeen)
            → result ≡ is_none (scan_stream offer (connection_of self.now).stream).fault }
    {
        self.state.fault.is_none()
    }

    /// All bytes that were taken.
    pub fn stream(&self) -> &[u8]
        ensures { result.now ≡ (connection_of self.now).stream }
    {
        &self.state.stream
    }

    /// All bytes that were written.
    pub fn output(&self) -> &[u8]
        ensures { result.now ≡ (connection_of self.now).output }
    {
        &self.state.output
    }

    /// The bytes that were taken and those that were written, which stay after a close.
    pub fn into_parts(self) -> (Vec<u8>, Vec<u8>)
        ensures stream { result.0.items ≡ (connection_of self).stream }
        ensures output { result.1.items ≡ (connection_of self).output }
    {
        let OpenConnection { state } = self;
        (state.stream, state.output)
    }

    /// Takes bytes of the connection of this number: how many, and why no more. Each record that
    /// they complete is read by what is offered, and answered at once, or its call waits.
    pub fn feed(
        &mut self,
        calls: &mut Calls,
        offer: Offer,
        number: ConnectionNumber,
        bytes: &[u8],
    ) -> (usize, Stop)
        requires { TakesInput self.old }
        ensures feeds { HasFed offer calls.old self.old number.0 bytes.now result.0 result.1
            calls.new self.new }
        ensures within { result.0 ≤ length bytes.now }
        ensures adds { Adds calls.old self.old number.0 calls.new self.new }
        ensures admitted { AllByRecursion (IsAdmitted (layout_in calls.new))
            (messages_of calls.new) }
    {
        feed(&mut self.state, &mut calls.state, offer, number, bytes)
    }
}
