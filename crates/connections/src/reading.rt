//! One read of a connection.

ghost use Rattle.std.specs.Prelude.{◌≡◌, ◌<◌, length};
ghost use Rattle.affinity.specs.Layout.{layout_of};

use crate::connection::Connection;
use crate::cutting::{cut_kept, cut_new};
use crate::device::Device;
use crate::told::Told;
use affinity::Layout;
use rpc_msg::{BoxedCall, Offer};
use tcp_front::RecordSink;

/// What a read of a connection came to.
#[derive(Clone, Copy, PartialEq, Eq, Debug)]
pub enum Came {
    /// This many bytes were read. Fewer than the block has room for: there were no more.
    Read(usize),
    /// Bytes that were read before were cut into records. The device wasn't asked.
    Cut,
    /// The sink has no room, and nothing was done.
    Full,
    /// The device would have to wait.
    Blocked,
    /// The device is at its end.
    End,
    /// The device failed.
    Failed,
    /// The reading stopped before, and nothing was done.
    Stopped,
}

impl<D: Device> Connection<D> {
    ghost use Rattle.connections.specs.Reading.{HasRead};

    /// Goes on reading: cuts what was kept, or reads once and cuts what came, and gives on the
    /// records, which are read by what is offered. What the sink has no room for is kept.
    pub fn read<S: RecordSink>(
        &mut self,
        sink: &mut S,
        layout: &Layout,
        offer: Offer,
        asked: &mut BoxedCall,
        block: &mut [u8],
    ) -> Came
        requires some { 0 < length block.old }
        requires layout { S.layout sink.old ≡ layout_of layout.now }
        ensures read { HasRead D.unread D.written S.came S.room (layout_of layout.now) offer
            self.old sink.old (length block.old) result self.new sink.new }
        ensures layout { S.layout sink.new ≡ S.layout sink.old }
    {
        if self.stopped.is_some() {
            return Came::Stopped;
        }
        if !sink.has_room() {
            return Came::Full;
        }
        if !self.kept.is_empty() {
            self.stopped = cut_kept(&mut self.stream, &mut self.kept, sink, layout, offer, asked);
            return Came::Cut;
        }
        match self.device.read_once(block) {
            Told::Moved(0) => Came::End,
            Told::Moved(size) => {
                self.stopped = cut_new(
                    &mut self.stream,
                    &mut self.kept,
                    sink,
                    layout,
                    offer,
                    asked,
                    &block[..size],
                );
                Came::Read(size)
            }
            Told::Blocked => Came::Blocked,
            Told::Failed => Came::Failed,
        }
    }
}
