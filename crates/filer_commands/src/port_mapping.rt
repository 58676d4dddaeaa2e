//! A port mapper beside a server that clients mount.

use port_mapper::{MAPPER_PORT, beside};
use port_mapper_server::{AllowedPeers, PortMapper};
use scripts::ProgramFault;
use server_options::Peers;
use std::alloc::Global;
use std::io::Write;
use std::net::{IpAddr, Net, SocketAddr, TcpListener, TcpStream};
use std::rt::Clock;
use std::sync::Arc;
use std::sync::atomic::{AtomicBool, Ordering};
use std::thread::{self, JoinHandle, Threads};

/// Whose calls are answered: of those whose connections the server takes.
#[derive(Drop)]
struct Allowed {
    peers: Peers,
}

impl AllowedPeers for Allowed {
    fn has(&self, address: &IpAddr) -> bool {
        self.peers.has(address)
    }
}

/// A port mapper that runs in a thread of its own.
pub(crate) struct Mapping {
    is_stopped: Arc<AtomicBool>,
    thread: JoinHandle<()>,
}

/// A port mapper at its port of a server's address, and tells the system's reason where it can't be
/// had.
fn bind<R, E>(
    rt: &R,
    alloc: Global,
    server: &SocketAddr,
    err: &mut E,
) -> Result<PortMapper, ProgramFault>
where
    R: Net<Listener = TcpListener, Stream = TcpStream>,
    E: Write,
{
    let address = SocketAddr::new(server.ip(), MAPPER_PORT);
    match PortMapper::bind(rt, alloc, address) {
        Ok(mapper) => Ok(mapper),
        Err(error) => {
            let _told = writeln!(
                err,
                "filer export --portmap: {address} can't be listened at: {error}"
            );
            Err(ProgramFault::Listen)
        }
    }
}

impl Mapping {
    /// Starts a port mapper that tells where a server listens, to those whose connections it takes.
    pub(crate) fn start<R, E>(
        rt: R,
        alloc: Global,
        server: &SocketAddr,
        peers: Peers,
        err: &mut E,
    ) -> Result<Mapping, ProgramFault>
    where
        R: Threads + Clock + Net<Listener = TcpListener, Stream = TcpStream>,
        R: Copy + Drop + Send + 'static,
        E: Write,
    {
        let mapper = bind(&rt, alloc, server, err)?;
        let Ok(is_stopped) = Arc::new(alloc, AtomicBool::new(false)) else {
            return Err(ProgramFault::NoMemory);
        };
        let is_ended = Arc::try_clone(&is_stopped)?;
        let port = server.port();
        let started = thread::spawn(&rt, move || {
            let mut mapper = mapper;
            mapper.serve(&rt, &beside(port), &Allowed { peers }, &is_ended);
        });
        match started {
            Ok(thread) => Ok(Mapping { is_stopped, thread }),
            Err(_refused) => Err(ProgramFault::Thread),
        }
    }

    /// Ends it, and waits for its end.
    pub(crate) fn end<R: Threads>(self, rt: &R) {
        let Mapping { is_stopped, thread } = self;
        is_stopped.store(true, Ordering::SeqCst);
        thread.join(rt);
    }
}
