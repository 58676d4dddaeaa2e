//! Sockets as devices.

ghost use Rattle.connections.specs.Told.{MovesAtMost};

use crate::traffic::Traffic;
use connections::{Device, DeviceCall, Told, answer_of};
use histories::History;
use mio::net::TcpStream;
use std::io::{self, ErrorKind, Read, Write};
use std::sync::Arc;

/// How often a call is made again that is interrupted. After these it counts as one that would have
/// waited, and is made again when the system tells of the socket.
const MOST_TRIES: usize = 100;

/// Whether a call was interrupted, so that it is made again.
fn was_interrupted(answer: &io::Result<usize>) -> bool {
    match answer {
        Ok(_size) => false,
        Err(error) => error.kind() == ErrorKind::Interrupted,
    }
}

/// Reads once; a call that is interrupted moves nothing, and is made again.
fn read_at_once(stream: &mut TcpStream, block: &mut [u8]) -> Told
    ensures { MovesAtMost result block.new }
{
    for _ in 0..MOST_TRIES {
        let answer = stream.read(block);
        if !was_interrupted(&answer) {
            return answer_of(&answer);
        }
    }
    answer_of(&stream.read(block))
}

/// Writes once; so too.
fn write_at_once(stream: &mut TcpStream, bytes: &[u8]) -> Told
    ensures { MovesAtMost result bytes.now }
{
    for _ in 0..MOST_TRIES {
        let answer = stream.write(bytes);
        if !was_interrupted(&answer) {
            return answer_of(&answer);
        }
    }
    answer_of(&stream.write(bytes))
}

/// A connection's socket, which is read and written at once or not at all. It tells its calls, the
/// bytes that the system's reads gave, and those that its writes took; none of that is kept.
#[derive(Drop)]
pub struct Socket {
    pub(crate) stream: TcpStream,
    /// Where its bytes are counted, if they are.
    traffic: Option<Arc<Traffic>>,
    given: History<u8>,
    taken: History<u8>,
    calls: History<DeviceCall>,
}

impl Socket {
    /// The socket of a stream of which nothing was read and to which nothing was written. Its bytes
    /// are counted here, if they are.
    pub(crate) fn new(stream: TcpStream, traffic: Option<Arc<Traffic>>) -> Socket {
        Socket {
            stream,
            traffic,
            given: History::new(),
            taken: History::new(),
            calls: History::new(),
        }
    }
}

impl Device for Socket {
    ghost use Rattle.std.specs.Prelude.{Some};
    ghost use Rattle.connections.specs.Incoming.{GivenSoFar};

    ghost unread = { λ s. GivenSoFar s.given.items };

    ghost written = { λ s. Some s.taken.items };

    ghost asked = { λ s. Some s.calls.items };

    fn read_now(&mut self, block: &mut [u8]) -> Told {
        let told = read_at_once(&mut self.stream, block);
        if let Told::Moved(size) = told {
            self.given = self.given.and_all(&block[..size]);
            if let Some(traffic) = &self.traffic {
                traffic.receive(size);
            }
        }
        self.calls = self.calls.and(&DeviceCall::Read(block.len(), told));
        told
    }

    fn write_now(&mut self, bytes: &[u8]) -> Told {
        let told = write_at_once(&mut self.stream, bytes);
        if let Told::Moved(size) = told {
            self.taken = self.taken.and_all(&bytes[..size]);
            if let Some(traffic) = &self.traffic {
                traffic.send(size);
            }
        }
        self.calls = self.calls.and(&DeviceCall::Write(bytes.len(), told));
        told
    }
}
