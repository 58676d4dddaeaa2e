//! What a command line may ask for.

use crate::admin_running::Growing;
use crate::exporting::Exporting;
use server_options::Options;
use std::net::SocketAddr;

/// A command, with its arguments.
#[derive(Clone, Copy)]
pub enum Command<'a> {
    /// Run the script in a file, and print a line for each of its events.
    Replay { path: &'a str },
    /// Serve the connections of a listener.
    Serve(Options),
    /// Serve clients that mount.
    Export(Exporting),
    /// Tell how many blocks the volumes of a running server have.
    Census { server: SocketAddr },
    /// Add ranges to a volume of a running server.
    Grow(Growing),
    /// Stop a running server.
    Stop { server: SocketAddr },
    /// Print the help of `export`, `census`, `grow` or `stop`.
    Help,
    /// Print the version.
    Version,
}
