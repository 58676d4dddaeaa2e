//! A connection: a request that is read, a response that is written, and an end that is waited
//! for.

use crate::teller::Teller;
use metrics::{Asked, MOST_REQUEST, metrics_response, read_request, refusal_response};
use mio::net::TcpStream;
use std::alloc::{AllocError, Global};
use std::io::{self, ErrorKind, Read, Write};
use std::net::Shutdown;

/// The most reads of a visit, and the most writes.
const MOST_TRIES: usize = 16;

/// The milliseconds for which a connection may be open.
const MOST_OPEN: u64 = 5_000;

/// What a visit came to.
#[derive(Clone, Copy, PartialEq, Eq, Debug)]
pub(crate) enum Visit {
    /// The socket has no more, or takes no more.
    Waits,
    /// There may be more to read or to write.
    GoesOn,
    /// It is to be closed.
    Ends,
}

/// How far it is.
#[derive(Clone, Copy, PartialEq, Eq, Debug)]
enum Stage {
    /// The request is read.
    Reads,
    /// The response is written.
    Writes,
    /// All is written, and its peer has yet to close it. What it sends meanwhile is dropped: a
    /// socket that is closed with bytes that nobody read may lose what was written (RFC 9112
    /// section 9.6).
    Drains,
}

/// A connection that is open.
#[derive(Drop)]
pub(crate) struct Caller {
    stream: TcpStream,
    stage: Stage,
    /// What came of its request.
    request: Vec<u8>,
    response: Vec<u8>,
    /// How many bytes of the response are written.
    written: usize,
    /// The millisecond in which it was opened.
    opened: u64,
}

impl Caller {
    /// A connection that is opened in a millisecond.
    pub(crate) fn new(alloc: Global, stream: TcpStream, now: u64) -> Result<Caller, AllocError> {
        Ok(Caller {
            stream,
            stage: Stage::Reads,
            request: Vec::with_capacity(alloc, MOST_REQUEST)?,
            response: Vec::new(alloc),
            written: 0,
            opened: now,
        })
    }

    /// For how many milliseconds more it may be open.
    pub(crate) fn left(&self, now: u64) -> u64 {
        MOST_OPEN.saturating_sub(now.saturating_sub(self.opened))
    }

    /// Answers the request, where all of it that is needed came.
    fn answer<T: Teller>(&mut self, alloc: Global, teller: &mut T) -> Visit {
        let response = match read_request(&self.request) {
            Asked::Unfinished => return Visit::GoesOn,
            Asked::Metrics => match teller.text(alloc) {
                Some(text) => metrics_response(alloc, &text),
                None => return Visit::Ends,
            },
            Asked::Refused(refusal) => refusal_response(alloc, refusal),
        };
        match response {
            Ok(response) => {
                self.response = response;
                self.stage = Stage::Writes;
                Visit::GoesOn
            }
            Err(_refused) => Visit::Ends,
        }
    }

    /// Reads once, and answers the request if it is finished; or drops what comes behind it.
    fn read<T: Teller>(&mut self, alloc: Global, teller: &mut T) -> Visit {
        let mut block = [0; MOST_REQUEST];
        let room = match self.stage {
            Stage::Drains => MOST_REQUEST,
            _ => MOST_REQUEST.saturating_sub(self.request.len()),
        };
        match self.stream.read(&mut block[..room]) {
            Ok(0) => Visit::Ends,
            Ok(size) => {
                if self.stage == Stage::Drains {
                    return Visit::GoesOn;
                }
                if self.request.extend_from_slice(&block[..size]).is_err() {
                    return Visit::Ends;
                }
                self.answer(alloc, teller)
            }
            Err(error) => after(&error),
        }
    }

    /// Writes once; once all is written its peer is told that nothing more comes.
    fn write(&mut self) -> Visit {
        let rest = self.response.get(self.written..).unwrap_or(&[]);
        if rest.is_empty() {
            self.stage = Stage::Drains;
            return match self.stream.shutdown(Shutdown::Write) {
                Ok(()) => Visit::GoesOn,
                Err(_failed) => Visit::Ends,
            };
        }
        match self.stream.write(rest) {
            Ok(size) => {
                self.written = self.written.saturating_add(size);
                Visit::GoesOn
            }
            Err(error) => after(&error),
        }
    }

    /// Reads, and then writes, as far as the socket goes at once.
    pub(crate) fn visit<T: Teller>(&mut self, alloc: Global, teller: &mut T) -> Visit {
        for _ in 0..MOST_TRIES {
            let visit = match self.stage {
                Stage::Writes => self.write(),
                _ => self.read(alloc, teller),
            };
            if visit != Visit::GoesOn {
                return visit;
            }
        }
        Visit::GoesOn
    }
}

/// What a call on a socket that failed comes to.
fn after(error: &io::Error) -> Visit {
    match error.kind() {
        ErrorKind::Interrupted => Visit::GoesOn,
        ErrorKind::WouldBlock => Visit::Waits,
        _ => Visit::Ends,
    }
}
