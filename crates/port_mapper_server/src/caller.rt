//! A connection, read and written as far as its socket goes at once.

use mio::net::TcpStream;
use port_mapper::{Conversation, Registration};
use std::alloc::Global;
use std::io::{self, ErrorKind, Read, Write};
use std::net::IpAddr;

/// How many bytes are read at most in one go.
const BLOCK: usize = 1_024;

/// The most reads of a visit, and the most writes after each.
const MOST_READS: usize = 16;

/// The seconds for which a connection may be silent.
const MOST_IDLE: u32 = 5;

/// What a visit came to.
#[derive(Clone, Copy, PartialEq, Eq, Debug)]
pub(crate) enum Visit {
    /// The socket has no more, or takes no more.
    Waits,
    /// There may be more to read or to write.
    GoesOn,
    /// It is to be closed.
    Ends,
}

/// What a read came to.
#[derive(Clone, Copy, PartialEq, Eq, Debug)]
enum Came {
    /// Bytes, which were heard.
    Some,
    /// No byte is there.
    Nothing,
    /// No further byte is to be heard.
    End,
}

/// A connection that is open.
#[derive(Drop)]
pub(crate) struct Caller {
    stream: TcpStream,
    /// The address of the server that it reached.
    reached: IpAddr,
    conversation: Conversation,
    /// Replies that aren't all written.
    replies: Vec<u8>,
    /// How many bytes of them are.
    written: usize,
    /// The second in which bytes came last.
    heard: u32,
    /// Whether no more is read of it, and it is closed once the replies are written.
    is_ending: bool,
}

impl Caller {
    /// A connection that is opened in a second, to this address of the server.
    pub(crate) fn new(alloc: Global, stream: TcpStream, reached: IpAddr, now: u32) -> Caller {
        Caller {
            stream,
            reached,
            conversation: Conversation::new(alloc),
            replies: Vec::new(alloc),
            written: 0,
            heard: now,
            is_ending: false,
        }
    }

    /// Whether it has been silent for longer than it may.
    pub(crate) fn is_idle(&self, now: u32) -> bool {
        now.saturating_sub(self.heard) >= MOST_IDLE
    }

    /// Writes replies as far as the socket takes them. Answers whether all are written.
    fn write(&mut self) -> io::Result<bool> {
        for _write in 0..MOST_READS {
            let rest = self.replies.get(self.written..).unwrap_or(&[]);
            if rest.is_empty() {
                self.replies.clear();
                self.written = 0;
                return Ok(true);
            }
            match self.stream.write(rest) {
                Ok(size) => self.written = self.written.saturating_add(size),
                Err(error) => match error.kind() {
                    ErrorKind::Interrupted => {}
                    ErrorKind::WouldBlock => return Ok(false),
                    _ => return Err(error),
                },
            }
        }
        Ok(false)
    }

    /// Hears bytes that came. Where they end the conversation, or memory ran out, nothing more is
    /// read.
    fn hear(&mut self, alloc: Global, registered: &[Registration], bytes: &[u8]) -> Came {
        let reached = self.reached;
        let replies = &mut self.replies;
        match self
            .conversation
            .hear(alloc, registered, &reached, bytes, replies)
        {
            Ok(true) => Came::Some,
            Ok(false) => Came::End,
            Err(_refused) => Came::End,
        }
    }

    /// Reads once.
    fn read(&mut self, alloc: Global, registered: &[Registration]) -> Came {
        let mut block = [0; BLOCK];
        match self.stream.read(&mut block) {
            Ok(0) => Came::End,
            Ok(size) => self.hear(alloc, registered, &block[..size]),
            Err(error) => match error.kind() {
                ErrorKind::Interrupted => Came::Nothing,
                ErrorKind::WouldBlock => Came::Nothing,
                _ => Came::End,
            },
        }
    }

    /// Reads and writes in turn, as far as the socket goes at once. Nothing is read before all
    /// replies are written.
    pub(crate) fn visit(&mut self, alloc: Global, registered: &[Registration], now: u32) -> Visit {
        for _read in 0..MOST_READS {
            match self.write() {
                Ok(true) => {}
                Ok(false) => return Visit::Waits,
                Err(_failed) => return Visit::Ends,
            }
            if self.is_ending {
                return Visit::Ends;
            }
            match self.read(alloc, registered) {
                Came::Some => self.heard = now,
                Came::Nothing => return Visit::Waits,
                Came::End => self.is_ending = true,
            }
        }
        Visit::GoesOn
    }
}
