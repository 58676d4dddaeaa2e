//! Bytes that are cut into records, and those that are kept.

ghost use Rattle.std.specs.Prelude.{◌≡◌, ◌<◌, [], None};
ghost use Rattle.affinity.specs.Layout.{layout_of};
ghost use Rattle.tcp_front.specs.Arrivals.{most_records};
ghost use Rattle.connections.specs.Cutting.{HasCut};

use crate::backlog::Backlog;
use affinity::Layout;
use rpc_msg::{BoxedCall, Offer};
use tcp_front::{RecordSink, Stopped, Stream, take_some};

/// Cuts kept bytes as far as the sink has room.
pub(crate) fn cut_kept<S: RecordSink>(
    stream: &mut Stream,
    kept: &mut Backlog,
    sink: &mut S,
    layout: &Layout,
    offer: Offer,
    asked: &mut BoxedCall,
) -> Option<Stopped>
    requires few { stream.old.records < most_records }
    requires layout { S.layout sink.old ≡ layout_of layout.now }
    ensures cut { HasCut S.came S.room (layout_of layout.now) offer stream.old sink.old
        kept.old result stream.new sink.new kept.new }
    ensures layout { S.layout sink.new ≡ S.layout sink.old }
{
    let (taken, stopped) = take_some(stream, sink, layout, offer, asked, kept.as_slice());
    kept.forget(taken);
    stopped
}

/// Cuts bytes that came as far as the sink has room, and keeps the others. Where there is no memory
/// to keep them, the reading stops.
pub(crate) fn cut_new<S: RecordSink>(
    stream: &mut Stream,
    kept: &mut Backlog,
    sink: &mut S,
    layout: &Layout,
    offer: Offer,
    asked: &mut BoxedCall,
    bytes: &[u8],
) -> Option<Stopped>
    requires few { stream.old.records < most_records }
    requires layout { S.layout sink.old ≡ layout_of layout.now }
    requires none { kept.old ≡ [] }
    ensures cut { HasCut S.came S.room (layout_of layout.now) offer stream.old sink.old
        bytes.now result stream.new sink.new kept.new }
    ensures layout { S.layout sink.new ≡ S.layout sink.old }
{
    let (taken, stopped) = take_some(stream, sink, layout, offer, asked, bytes);
    if stopped.is_some() {
        return stopped;
    }
    match kept.put(&bytes[taken..]) {
        Ok(()) => None,
        Err(_refused) => Some(Stopped::NoMemory),
    }
}
