//! Why the program ends before its work is done.

ghost use Rattle.std.specs.Prelude.{◌≡◌, ◌≢◌};

use std::alloc::AllocError;
use std::io;
use thiserror::Error;

/// What ends a command; the text is the line that is printed.
#[derive(Clone, Copy, Debug, PartialEq, Eq, Error)]
pub enum ProgramFault {
    /// The command line can't be parsed, or asks for help.
    #[error("fault 60")]
    CommandLine,
    /// The file can't be read.
    #[error("fault 61")]
    File,
    /// The address can't be listened at.
    #[error("fault 62")]
    Listen,
    /// A connection can't be accepted, or not served.
    #[error("fault 63")]
    Accept,
    /// A thread can't be started.
    #[error("fault 66")]
    Thread,
    /// A running server can't be reached.
    #[error("fault 70")]
    Connect,
    /// A running server gives no reply, or none that can be read.
    #[error("fault 71")]
    Reply,
    /// A running server refuses a call.
    #[error("fault 72")]
    CallRefused,
    /// Memory ran out.
    #[error("refused 90")]
    NoMemory,
    /// A line of a script, counted from 1, is of no form that a line may have where it stands.
    #[error("bad line {number}")]
    BadLine { number: usize },
    /// A write failed, so that nothing more is printed.
    #[error("fault of the output")]
    Output,
}

impl From<AllocError> for ProgramFault {
    fn from(_full: AllocError) -> ProgramFault {
        ProgramFault::NoMemory
    }
}

impl ProgramFault {
    /// Why the command line can't be read.
    pub fn of_words(error: &io::Error) -> ProgramFault {
        match error.kind() {
            io::ErrorKind::OutOfMemory => ProgramFault::NoMemory,
            _ => ProgramFault::CommandLine,
        }
    }

    /// Why a file can't be read.
    pub fn of_file(error: &io::Error) -> ProgramFault {
        match error.kind() {
            io::ErrorKind::OutOfMemory => ProgramFault::NoMemory,
            _ => ProgramFault::File,
        }
    }

    /// The exit status of the program.
    pub fn status(self) -> u8
        ensures command_line { self ≡ ProgramFault.CommandLine → result ≡ 2 }
        ensures others { self ≢ ProgramFault.CommandLine → result ≡ 1 }
    {
        match self {
            ProgramFault::CommandLine => 2,
            ProgramFault::File
            | ProgramFault::Listen
            | ProgramFault::Accept
            | ProgramFault::Thread
            | ProgramFault::Connect
            | ProgramFault::Reply
            | ProgramFault::CallRefused
            | ProgramFault::NoMemory
            | ProgramFault::BadLine { .. }
            | ProgramFault::Output => 1,
        }
    }
}
