//! One connection is served.

use server::serve;
use server_options::Options;
use std::io::Write;
use std::net::{Net, SocketAddr, TcpListener, TcpStream};
use std::rt::Clock;
use std::sync::Wait;
use std::thread::Threads;

/// Serves one connection; what is printed of it goes to a writer.
pub fn serve_one<R, W>(rt: R, out: &mut W) -> Option<()>
where
    R: AllocGlobal + Threads + Wait + Clock + Net<Listener = TcpListener, Stream = TcpStream>,
    R: Copy + Drop + Send + 'static,
    W: Write,
{
    let address = "127.0.0.1:2049".parse::<SocketAddr>().ok()?;
    let options = Options::new(address, 1, 2, Some(1))?;
    let listener = TcpListener::bind(&rt, options.address).ok()?;
    serve(rt, rt.alloc(), listener, &options, out).ok()?;
    Some(())
}
