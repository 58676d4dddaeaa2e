//! The loop over a reader.

ghost use Rattle.std.specs.Prelude.{◌≡◌, ◌<◌, true, length, IfOk};
ghost use Rattle.affinity.specs.Layout.{layout_of};
ghost use Rattle.tcp_front.specs.Counts.{may_fail};
ghost use Rattle.tcp_front.specs.Peers.{sender_of};
ghost use Rattle.tcp_front.specs.Reading.{HasRead};
ghost use Rattle.tcp_front.specs.Steps.{end_of};

use crate::counted::Counted;
use crate::peer::Peer;
use crate::read_end::ReadEnd;
use crate::sink::RecordSink;
use crate::stream::{Stopped, Stream};
use crate::taking::take_all;
use affinity::Layout;
use nfs_values::ConnectionNumber;
use rpc_msg::{BoxedCall, Offer};
use rpc_record::Reassembler;
use std::alloc::{AllocError, Global};
use std::io::Read;
use std::sync::Wait;

/// The most bytes of one read.
const BLOCK: usize = 65_536;

/// Room for what one read gives.
fn new_block(alloc: Global) -> Result<Vec<u8>, AllocError>
    ensures { IfOk result (λ block. 0 < length block.items) }
{
    vec![in alloc; 0; BLOCK]
}

/// The end that a stop is.
fn end_of(stopped: Stopped) -> ReadEnd
    ensures { result ≡ end_of stopped }
{
    match stopped {
        Stopped::Fault(fault) => ReadEnd::Fault(fault),
        Stopped::NoMemory => ReadEnd::NoMemory,
        Stopped::NumbersUsed => ReadEnd::NumbersUsed,
    }
}

/// Reads a connection to its end, with a block for what one read gives and memory for a call: the
/// calls of its records, read by what is offered, are admitted under their homes, in order and each
/// once, and records that need no worker are answered (RFC 5531 sections 9 and 11). All records of
/// one read are given on before the sink is told of them. The sink always has room: where it has no
/// place for a call it waits for one.
pub fn read_loop_in<W: Wait, R: Read, S: RecordSink>(
    rt: &W,
    alloc: Global,
    reader: &mut Counted<R>,
    block: &mut [u8],
    layout: &Layout,
    offer: Offer,
    connection: ConnectionNumber,
    peer: Peer,
    sink: &mut S,
    asked: &mut BoxedCall,
) -> ReadEnd
    requires room { may_fail reader.old }
    requires some { 0 < length block.old }
    requires always { (s : S) → S.room s ≡ true }
    requires layout { S.layout sink.old ≡ layout_of layout.now }
    ensures { HasRead R.remaining S.came (layout_of layout.now) offer connection.0
        (sender_of peer) reader.old sink.old result reader.new sink.new }
{
    let mut stream = Stream {
        alloc,
        connection,
        peer,
        reassembler: Reassembler::new(alloc),
        records: 0,
    };
    for _ in rt.forever() {
        let size = match reader.read_some(block) {
            Ok(0) => return ReadEnd::End,
            Ok(size) => size,
            Err(_) => return ReadEnd::ReaderFailed,
        };
        let stopped = take_all(&mut stream, sink, layout, offer, asked, &block[..size]);
        sink.read_ended();
        match stopped {
            None => {}
            Some(stopped) => return end_of(stopped),
        }
    }
    unreachable!()
}

/// `read_loop_in` with a block of 64 KiB.
pub fn read_loop<W: Wait, R: Read, S: RecordSink>(
    rt: &W,
    alloc: Global,
    reader: &mut Counted<R>,
    layout: &Layout,
    offer: Offer,
    connection: ConnectionNumber,
    peer: Peer,
    sink: &mut S,
) -> ReadEnd
    requires room { may_fail reader.old }
    requires always { (s : S) → S.room s ≡ true }
    requires layout { S.layout sink.old ≡ layout_of layout.now }
    ensures { HasRead R.remaining S.came (layout_of layout.now) offer connection.0
        (sender_of peer) reader.old sink.old result reader.new sink.new }
{
    let (Ok(mut block), Ok(mut asked)) = (new_block(alloc), BoxedCall::blank(alloc)) else {
        return ReadEnd::NoMemory;
    };
    read_loop_in(
        rt, alloc, reader, &mut block, layout, offer, connection, peer, sink, &mut asked,
    )
}
