//! Calls of the admin program of a running server.

ghost use Rattle.std.specs.Prelude.{◌≤◌, IfOk};

use crate::admin_printing::{print_census, print_growth, print_stop, tell_fault};
use admin_client::AdminUser;
use libc::{getegid, geteuid};
use nfs_values::VolumeNumber;
use scripts::ProgramFault;
use std::io::{self, ErrorKind, Read, Write};
use std::net::{Net, SocketAddr, TcpListener, TcpStream};
use std::rt::Clock;
use std::time::{Duration, Instant};

/// How many seconds a server may take to be reached, and from then on to have answered.
const PATIENCE: u64 = 10;

/// The shortest time for which a read or a write waits, in milliseconds.
const LEAST: u64 = 1;

/// A stream whose reads and writes fail once it has been open for too long.
#[derive(Drop)]
struct Patient<'a, R> {
    stream: TcpStream,
    clock: &'a R,
    opened: Instant,
}

impl<R: Clock> Patient<'_, R> {
    /// How long it may still wait.
    fn left(&self) -> io::Result<Duration> {
        let passed = self.opened.elapsed(self.clock)?;
        let left = Duration::from_secs(PATIENCE).saturating_sub(passed);
        if left < Duration::from_millis(LEAST) {
            return Err(io::Error::from(ErrorKind::TimedOut));
        }
        Ok(left)
    }
}

impl<R: Clock> Read for Patient<'_, R> {
    fn read(&mut self, buf: &mut [u8]) -> io::Result<usize> {
        self.stream.set_read_timeout(Some(self.left()?))?;
        self.stream.read(buf)
    }
}

impl<R: Clock> Write for Patient<'_, R> {
    fn write(&mut self, buf: &[u8]) -> io::Result<usize> {
        self.stream.set_write_timeout(Some(self.left()?))?;
        self.stream.write(buf)
    }

    fn flush(&mut self) -> io::Result<()> {
        self.stream.flush()
    }
}

/// A connection to a server.
fn connect<R>(rt: &R, server: SocketAddr) -> io::Result<Patient<'_, R>>
where
    R: Clock + Net<Listener = TcpListener, Stream = TcpStream>,
{
    let stream = TcpStream::connect_timeout(rt, &server, Duration::from_secs(PATIENCE))?;
    Ok(Patient {
        stream,
        clock: rt,
        opened: Instant::now(rt)?,
    })
}

/// The same, and tells where the server can't be reached.
fn reach<'a, R, E>(
    rt: &'a R,
    server: SocketAddr,
    err: &mut E,
) -> Result<Patient<'a, R>, ProgramFault>
where
    R: Clock + Net<Listener = TcpListener, Stream = TcpStream>,
    E: Write,
{
    match connect(rt, server) {
        Ok(stream) => Ok(stream),
        Err(_failed) => {
            let _told = writeln!(err, "no server can be reached at {server}");
            Err(ProgramFault::Connect)
        }
    }
}

/// Asks a server for its census, and prints it.
pub(crate) fn run_census<R, W, E>(
    rt: &R,
    server: SocketAddr,
    out: &mut W,
    err: &mut E,
) -> Result<u8, ProgramFault>
where
    R: AllocGlobal + Clock + Net<Listener = TcpListener, Stream = TcpStream>,
    W: Write,
    E: Write,
    ensures { IfOk result (λ status. status ≤ 1) }
{
    let mut stream = reach(rt, server, err)?;
    match admin_client::census(&mut stream, rt.alloc()) {
        Ok(census) => {
            print_census(out, &census)?;
            Ok(0)
        }
        Err(fault) => Err(tell_fault(err, fault)),
    }
}

/// Who runs the process.
fn own_user() -> AdminUser {
    AdminUser::Of {
        uid: geteuid(),
        gid: getegid(),
    }
}

/// A stream that was connected just now.
fn opened<R: Clock>(rt: &R, stream: TcpStream) -> Result<Patient<'_, R>, ProgramFault> {
    match Instant::now(rt) {
        Ok(opened) => Ok(Patient {
            stream,
            clock: rt,
            opened,
        }),
        Err(_failed) => Err(ProgramFault::Connect),
    }
}

/// A connection to a server from a port below 1024, where the process may have one.
fn reach_low<'a, R, E>(
    rt: &'a R,
    server: SocketAddr,
    err: &mut E,
) -> Result<Option<Patient<'a, R>>, ProgramFault>
where
    R: Clock + Net<Listener = TcpListener, Stream = TcpStream>,
    E: Write,
{
    match low_ports::connect(rt, &server, Duration::from_secs(PATIENCE)) {
        Ok(stream) => Ok(Some(opened(rt, stream)?)),
        Err(error) => {
            if error.kind() == ErrorKind::PermissionDenied {
                return Ok(None);
            }
            let _told = writeln!(err, "no server can be reached at {server}");
            Err(ProgramFault::Connect)
        }
    }
}

/// A connection to a server from a port below 1024, and where the process may have none from
/// another one, which is told.
fn reach_for_growth<'a, R, E>(
    rt: &'a R,
    server: SocketAddr,
    err: &mut E,
) -> Result<Patient<'a, R>, ProgramFault>
where
    R: Clock + Net<Listener = TcpListener, Stream = TcpStream>,
    E: Write,
{
    match reach_low(rt, server, err)? {
        Some(stream) => Ok(stream),
        None => {
            let _told = writeln!(
                err,
                "no port below 1024 can be had: a server that checks its callers refuses this"
            );
            reach(rt, server, err)
        }
    }
}

/// What is to grow: a volume of a server, by this many ranges.
#[derive(Clone, Copy)]
pub struct Growing {
    pub server: SocketAddr,
    pub volume: VolumeNumber,
    pub ranges: u32,
}

/// Asks a server for more ranges for a volume, and prints what became of it: status 1 where the
/// volume isn't grown.
pub(crate) fn run_grow<R, W, E>(
    rt: &R,
    growing: Growing,
    out: &mut W,
    err: &mut E,
) -> Result<u8, ProgramFault>
where
    R: AllocGlobal + Clock + Net<Listener = TcpListener, Stream = TcpStream>,
    W: Write,
    E: Write,
    ensures { IfOk result (λ status. status ≤ 1) }
{
    let Growing {
        server,
        volume,
        ranges,
    } = growing;
    let mut stream = reach_for_growth(rt, server, err)?;
    match admin_client::grow(&mut stream, rt.alloc(), own_user(), volume, ranges) {
        Ok(growth) => {
            let grown = print_growth(out, volume, ranges, growth)?;
            Ok(if grown { 0 } else { 1 })
        }
        Err(fault) => Err(tell_fault(err, fault)),
    }
}

/// A connection to a server from a port below 1024; where there is none it is told why.
fn reach_as_root<'a, R, E>(
    rt: &'a R,
    server: SocketAddr,
    err: &mut E,
) -> Result<Patient<'a, R>, ProgramFault>
where
    R: Clock + Net<Listener = TcpListener, Stream = TcpStream>,
    E: Write,
{
    match reach_low(rt, server, err)? {
        Some(stream) => Ok(stream),
        None => {
            let _told = writeln!(
                err,
                "only root may stop a server: no port below 1024 can be had"
            );
            Err(ProgramFault::Connect)
        }
    }
}

/// Asks a server to stop, and prints that it does.
pub(crate) fn run_stop<R, W, E>(
    rt: &R,
    server: SocketAddr,
    out: &mut W,
    err: &mut E,
) -> Result<u8, ProgramFault>
where
    R: AllocGlobal + Clock + Net<Listener = TcpListener, Stream = TcpStream>,
    W: Write,
    E: Write,
    ensures { IfOk result (λ status. status ≤ 1) }
{
    let mut stream = reach_as_root(rt, server, err)?;
    match admin_client::stop(&mut stream, rt.alloc(), own_user()) {
        Ok(()) => {
            print_stop(out)?;
            Ok(0)
        }
        Err(fault) => Err(tell_fault(err, fault)),
    }
}
