//! Where metrics are told beside a server that clients mount.

use metrics_server::MetricsServer;
use scripts::ProgramFault;
use std::alloc::Global;
use std::io::Write;
use std::net::{Net, SocketAddr, TcpListener, TcpStream};

/// Who tells metrics at an address, if one is named, and tells the system's reason where that can't
/// be had.
pub(crate) fn bind<R, E>(
    rt: &R,
    alloc: Global,
    address: Option<SocketAddr>,
    err: &mut E,
) -> Result<Option<MetricsServer>, ProgramFault>
where
    R: Net<Listener = TcpListener, Stream = TcpStream>,
    E: Write,
{
    let Some(address) = address else {
        return Ok(None);
    };
    match MetricsServer::bind(rt, alloc, address) {
        Ok(server) => Ok(Some(server)),
        Err(error) => {
            let _told = writeln!(
                err,
                "filer export --metrics {address}: the address can't be listened at: {error}"
            );
            Err(ProgramFault::Listen)
        }
    }
}

/// The address at which metrics are told, if they are.
pub(crate) fn address_of(metrics: &Option<MetricsServer>) -> Option<SocketAddr> {
    match metrics {
        Some(server) => server.address().ok(),
        None => None,
    }
}
